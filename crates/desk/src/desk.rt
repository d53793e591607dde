//! What lies on a desk, and what each command does with it.
ghost use Rattle.std.specs.Prelude.{◌≤◌, vec_len};

use crate::call::{call_of, verdict};
use crate::view::{View, check};
use answers::{Failure, LineAnswer, RefusedLine, Verdict};
use choice::{ChosenLimit, LimitsInForce};
use commands::{Command, Name, SheetCommand};
use findings::{Finding, MOST_FINDINGS};
use label::Label;
use road::{Road, RoadDesign};
use rows::{MOST_ROWS, RowRecord};
use series::Sheet;
use std::alloc::{AllocError, Global};
use std::io;
use std::io::Write;

/// The one open sheet, where a road was opened, with the memory that it lies in and the limits in force for it. A command that is refused or wrong changes nothing.
#[derive(Drop)]
pub struct Desk {
    pub(crate) sheet: Option<Sheet>,
    pub(crate) limits: LimitsInForce,
    // the memory of the sheet's rows, and of what a check finds
    pub(crate) rows: Vec<RowRecord>,
    pub(crate) findings: Vec<Finding>,
    ghost roomy: { 4_000 ≤ vec_len rows },
}

impl Desk {
    ghost use Rattle.std.specs.Prelude.{◌≡◌, List, ℕ, None, IfOk, OnOk, length};
    ghost use Rattle.std.specs.Io.KnownBytes.{Appends};
    ghost use Rattle.choice.specs.declared.in_force.LimitsInForce.TheVariants.{Compulsory, Named};
    ghost use Rattle.desk.specs.Desk.{Labels, Opens, IsOpen, sheet_on, limits_on, rows_in, findings_in, with_limits};
    ghost use Rattle.desk.specs.Calls.{CalledOn};
    ghost use Rattle.desk.specs.Texts.{listing_of};
    ghost use Rattle.desk.specs.Reports.{Reports};

    /// A desk with no sheet, and room for the most rows, 4,000, and for sixteen findings of each, the most of a row.
    pub fn new(heap: Global) -> Result<Desk, AllocError>
        ensures { IfOk result (λ d. (sheet_on d ≡ None) × (limits_on d ≡ Compulsory) × (length (rows_in d) ≡ 4_000) × (length (findings_in d) ≡ 64_000)) }
    {
        Ok(Desk {
            sheet: None,
            limits: LimitsInForce::Compulsory,
            rows: vec![in heap; RowRecord::BLANK; MOST_ROWS]?,
            findings: vec![in heap; Finding::UNUSED; MOST_ROWS * MOST_FINDINGS]?,
        })
    }

    /// Lays a sheet of a road on the desk, in place of the one before and under the compulsory limits. A road that is refused leaves what was there.
    pub fn open(&mut self, design: RoadDesign) -> Result<LineAnswer, Failure>
        ensures { Opens design self.old self.new result }
    {
        let road = Road::open(design)?;
        self.sheet = Some(Sheet::open(road));
        self.limits = LimitsInForce::Compulsory;
        Ok(LineAnswer::Opened(road))
    }

    /// The label of a curve on the sheet's road: its radius in mm, its turn in ten-thousandths of a gon. One outside its range is refused; without a sheet there is no label.
    pub fn label(&self, radius: u32, turn: u32) -> Result<LineAnswer, Failure>
        ensures { Labels radius turn (sheet_on self.now) result }
    {
        let Some(sheet) = &self.sheet else {
            return Err(Failure::NoRoad(Name::Label));
        };
        let label = Label::at(&sheet.road(), radius, turn)?;
        Ok(LineAnswer::Labelled {
            radius,
            turn,
            label,
        })
    }

    /// Puts the limits in force that were named, from here on until a road is opened.
    pub fn choose(&mut self, limits: Vec<ChosenLimit>)
        ensures { self.new ≡ with_limits (Named limits) self.old }
    {
        self.limits = LimitsInForce::Named(limits);
    }

    /// Whether a sheet is open, for the command of that name, which speaks of it.
    pub fn opened(&self, name: Name) -> Result<(), Failure>
        ensures { IsOpen name (sheet_on self.now) result }
    {
        match &self.sheet {
            Some(_) => Ok(()),
            None => Err(Failure::NoRoad(name)),
        }
    }

    /// Makes the call that a command asks on the open sheet, writes what it answers, and says how its line fares, whose number is handed in.
    /// Where no sheet is open, or the sheet does not have the call, the line is wrong.
    pub fn call<W: Write>(
        &mut self,
        out: &mut W,
        line: u64,
        command: SheetCommand,
    ) -> io::Result<Verdict>
        ensures { IfOk result (λ verdict. (text : List ℕ) × CalledOn line command (sheet_on self.old) self.old self.new text verdict × Appends (W.contents out.old) (W.contents out.new) text) }
    {
        let Some(sheet) = self.sheet.take() else {
            let no_road = Failure::NoRoad(command.name());
            writeln!(out, "error {line}: {no_road}")?;
            return Ok(Verdict::Wrong);
        };
        let call = call_of(command, &self.limits, self.findings.len());
        let (sheet, outcome) = sheet.step(
            self.rows.as_mut_slice(),
            self.findings.as_mut_slice(),
            &call,
        );
        let view = View {
            sheet: &sheet,
            rows: self.rows.as_slice(),
            limits: &self.limits,
        };
        let found = outcome.found_in(self.findings.as_slice());
        let written = view.write_answer(out, line, command, outcome, found);
        self.sheet = Some(sheet);
        written?;
        Ok(verdict(outcome))
    }

    /// Writes the open sheet as a table, and below it what a check finds under the limits in force, and says how its line fares. Where no sheet is open,
    /// the line is wrong.
    pub fn report<W: Write>(&mut self, out: &mut W, line: u64) -> io::Result<Verdict>
        ensures { IfOk result (λ verdict. (text : List ℕ) × Reports line (sheet_on self.old) self.old self.new text verdict × Appends (W.contents out.old) (W.contents out.new) text) }
    {
        let Some(sheet) = &self.sheet else {
            let no_road = Failure::NoRoad(Name::Report);
            writeln!(out, "error {line}: {no_road}")?;
            return Ok(Verdict::Wrong);
        };
        let found = check(
            sheet,
            self.rows.as_slice(),
            &self.limits,
            self.findings.as_mut_slice(),
        );
        let view = View {
            sheet,
            rows: self.rows.as_slice(),
            limits: &self.limits,
        };
        view.write_table(out)?;
        match found {
            Ok(count) => {
                view.write_below(out, &self.findings.as_slice()[..count])?;
                Ok(Verdict::Answered)
            }
            Err(refusal) => {
                let command = Command::Report;
                let refused = RefusedLine {
                    refusal,
                    command,
                    line,
                };
                writeln!(out, "{refused}")?;
                Ok(Verdict::Refused)
            }
        }
    }

    /// Writes the rows of the open sheet, a line each; nothing where none is open.
    pub fn write_rows<W: Write>(&self, out: &mut W) -> io::Result<()>
        ensures { OnOk result (Appends (W.contents out.old) (W.contents out.new) (listing_of (sheet_on self.now) (rows_in self.now))) }
    {
        match &self.sheet {
            Some(sheet) => View {
                sheet,
                rows: self.rows.as_slice(),
                limits: &self.limits,
            }
            .write_rows(out),
            None => Ok(()),
        }
    }
}
