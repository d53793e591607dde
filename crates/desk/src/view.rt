// A view of the open sheet with its memory and its limits, and what is written of it.
ghost use Rattle.std.specs.Prelude.{◌≡◌, List, ℕ, OnOk, length};
ghost use Rattle.std.specs.Io.KnownBytes.{Appends};
ghost use Rattle.plain.specs.Sheet.{fitted, check as asking};
ghost use Rattle.sheet.specs.States.{listed, Untouched, OnlyLooks};
ghost use Rattle.series.specs.Calls.{mark_of, stands, told};
ghost use Rattle.wording.specs.Lines.{explained_text};
ghost use Rattle.report.specs.Explanations.{LinesOf};
ghost use Rattle.report.specs.Findings.{FindingsBelow};
ghost use Rattle.desk.specs.Desk.{meaning_of};
ghost use Rattle.desk.specs.Views.{road_on, records_on, rows_on, shown_on, AsReport};
ghost use Rattle.report.specs.Texts.{WritesText};
ghost use Rattle.desk.specs.Texts.{rows_text, SetOutList, Says, SaysDone, why_barred};
ghost use Rattle.desk.specs.Reports.{has_mark, SheetShown};

use answers::{Failure, LineAnswer, RefusedLine, SetOut, ShownRow};
use choice::LimitsInForce;
use commands::{Command, Name, SheetCommand};
use findings::Finding;
use report::Report;
use road::{Refusal, Road};
use rows::RowRecord;
use series::{Outcome, Sheet};
use std::io;
use std::io::Write;

// A sheet, the memory that it lies in, and the limits in force for it.
#[derive(Clone, Copy)]
pub(crate) struct View<'a> {
    pub(crate) sheet: &'a Sheet,
    pub(crate) rows: &'a [RowRecord],
    pub(crate) limits: &'a LimitsInForce,
}

// Checks a sheet of either mark.
pub(crate) fn check(
    sheet: &Sheet,
    rows: &[RowRecord],
    limits: &LimitsInForce,
    findings: &mut [Finding],
) -> Result<usize, Refusal>
    ensures step { OnlyLooks (stands sheet.now rows.now) (asking (meaning_of limits.now) (length findings.old)) (listed result findings.new) }
    ensures rest { Untouched result findings.old findings.new }
{
    match sheet {
        Sheet::Draft(draft) => draft.check(rows, limits, findings),
        Sheet::Fitted(sheet) => sheet.check(rows, limits, findings),
    }
}

// Whether the sheet is fitted.
fn is_fitted(sheet: &Sheet) -> bool
    ensures { result ≡ has_mark fitted (mark_of sheet.now) }
{
    matches!(sheet, Sheet::Fitted(_))
}

// Why a sheet does not have a call of this name.
fn barred(sheet: &Sheet, name: Name) -> Failure
    ensures { result ≡ why_barred (mark_of sheet.now) name }
{
    match sheet {
        Sheet::Draft(_) => Failure::Draft(name),
        Sheet::Fitted(_) => Failure::Fitted(name),
    }
}

impl<'a> View<'a> {
    // The records of the sheet's rows.
    fn records(&self) -> &'a [RowRecord]
        ensures first { result.now ≡ records_on self.now }
        ensures number { length result.now ≡ length (rows_on self.now) }
    {
        let count = self.sheet.len().min(self.rows.len());
        &self.rows[..count]
    }

    // The rows, a line each.
    pub(crate) fn write_rows<W: Write>(&self, out: &mut W) -> io::Result<()>
        ensures { OnOk result (Appends (W.contents out.old) (W.contents out.new) (rows_text 0 (rows_on self.now))) }
    {
        for (position, record) in self.records().iter().enumerate() {
            let shown = ShownRow {
                position,
                row: record.read(),
            };
            writeln!(out, "{shown}")?;
        }
        Ok(())
    }

    // The setting-out list, a line for each row.
    fn write_set_out<W: Write>(&self, out: &mut W) -> io::Result<()>
        ensures { OnOk result (WritesText (SetOutList 0 (rows_on self.now)) (W.contents out.old) (W.contents out.new)) }
    {
        for (position, record) in self.records().iter().enumerate() {
            writeln!(out, "{}", SetOut::of(position, record.read()))?;
        }
        Ok(())
    }

    // What is reported of the sheet, whose road is handed in, since it has no place of its own in a sheet.
    fn report<'b>(&'b self, road: &'b Road) -> Report<'b>
        ensures { AsReport self.now road.now result }
    {
        Report {
            road,
            fitted: is_fitted(self.sheet),
            rows: self.records(),
            limits: self.limits,
        }
    }

    // Findings in plain words, a line each.
    fn write_findings<W: Write>(&self, out: &mut W, findings: &[Finding]) -> io::Result<()>
        ensures { OnOk result (WritesText (LinesOf (road_on self.now) self.now.limits.now (records_on self.now) explained_text findings.now) (W.contents out.old) (W.contents out.new)) }
    {
        let road = self.sheet.road();
        self.report(&road).write_explained(out, findings)
    }

    // The sheet as a table.
    pub(crate) fn write_table<W: Write>(&self, out: &mut W) -> io::Result<()>
        ensures { OnOk result (WritesText (SheetShown self.now.sheet.now self.now.rows.now self.now.limits.now) (W.contents out.old) (W.contents out.new)) }
    {
        let road = self.sheet.road();
        self.report(&road).write_table(out)
    }

    // What stands below the table: the findings of a check, and how many they are.
    pub(crate) fn write_below<W: Write>(&self, out: &mut W, findings: &[Finding]) -> io::Result<()>
        ensures { OnOk result (WritesText (FindingsBelow (road_on self.now) self.now.limits.now (records_on self.now) findings.now) (W.contents out.old) (W.contents out.new)) }
    {
        let road = self.sheet.road();
        self.report(&road).write_findings(out, findings)
    }

    // Writes that a call was carried out.
    fn write_done<W: Write>(&self, out: &mut W, command: SheetCommand) -> io::Result<()>
        ensures { OnOk result (WritesText (SaysDone command (rows_on self.now)) (W.contents out.old) (W.contents out.new)) }
    {
        let count = self.records().len();
        match command {
            SheetCommand::Add { before, .. } => {
                let row = before.map_or(count.saturating_sub(1), |position| position as usize);
                writeln!(out, "{}", LineAnswer::Added { row })
            }
            SheetCommand::Remove { row } => {
                writeln!(out, "{}", LineAnswer::Removed { row: row as usize })
            }
            SheetCommand::Set { row, .. } => {
                writeln!(out, "{}", LineAnswer::LengthsSet { row: row as usize })
            }
            SheetCommand::Fit => {
                writeln!(out, "{}", LineAnswer::Fitted { count })?;
                self.write_set_out(out)
            }
            SheetCommand::Reopen => writeln!(out, "{}", LineAnswer::Reopened),
            // these are answered otherwise
            SheetCommand::Check | SheetCommand::Parameter { .. } => Ok(()),
        }
    }

    // Writes what a line's call answers; what was found are the findings of a check.
    pub(crate) fn write_answer<W: Write>(
        &self,
        out: &mut W,
        line: u64,
        command: SheetCommand,
        outcome: Outcome,
        found: &[Finding],
    ) -> io::Result<()>
        ensures { OnOk result ((t : List ℕ) × Says self.now.limits.now line command (told outcome found.now) (shown_on self.now) t × Appends (W.contents out.old) (W.contents out.new) t) }
    {
        match outcome {
            Outcome::Done => self.write_done(out, command),
            Outcome::Found(count) => {
                self.write_findings(out, found)?;
                writeln!(out, "{}", LineAnswer::Found { count })
            }
            Outcome::Parameter(parameter) => match command {
                SheetCommand::Parameter { row, at } => {
                    let row = row as usize;
                    writeln!(out, "{}", LineAnswer::Parameter { row, at, parameter })
                }
                // only that command is answered so
                _ => Ok(()),
            },
            Outcome::Refused(refusal) => {
                let refused = RefusedLine {
                    refusal,
                    command: Command::Sheet(command),
                    line,
                };
                writeln!(out, "{refused}")
            }
            Outcome::Barred => {
                let why = barred(self.sheet, command.name());
                writeln!(out, "error {line}: {why}")
            }
        }
    }
}
