//! A sheet's report: its table, and its findings below.
ghost use Rattle.std.specs.Prelude.{OnOk, map};
ghost use Rattle.std.specs.Io.KnownBytes.{Appends};
ghost use Rattle.rows.specs.Records.{row_of};
ghost use Rattle.choice.specs.Governors.{limits_of};
ghost use Rattle.report.specs.Headings.{numbered_text, limits_heading};
ghost use Rattle.report.specs.Tables.{as_line, TableOf, heading_of, SheetTable};
ghost use Rattle.report.specs.Texts.{WritesText};
ghost use Rattle.wording.specs.Lines.{explained_text};
ghost use Rattle.report.specs.Explanations.{LinesOf};
ghost use Rattle.report.specs.Findings.{finding_line, FindingsBelow};

use crate::explanation::explained;
use crate::finding_line::FindingLine;
use crate::heading::{Counted, RoadHeading, SheetHeading};
use crate::table_row::TableRow;
use choice::{ChosenLimit, LimitsInForce};
use findings::Finding;
use road::Road;
use rows::RowRecord;
use std::io;
use std::io::Write;

/// What is reported: a sheet's road, mark and rows, and the limits in force for it.
///
/// Its methods fail only where the writer does.
#[derive(Clone, Copy)]
pub struct Report<'a> {
    /// The road.
    pub road: &'a Road,
    /// The mark: fitted, or else a draft.
    pub fitted: bool,
    /// Every row, in order.
    pub rows: &'a [RowRecord],
    /// The limits that lengths are judged by.
    pub limits: &'a LimitsInForce,
}

// Limits, numbered from 1.
fn write_numbered<W: Write>(out: &mut W, limits: &[ChosenLimit]) -> io::Result<()>
    ensures { OnOk result (Appends (W.contents out.old) (W.contents out.new) (numbered_text 1 limits.now)) }
{
    for (at, limit) in limits.iter().enumerate() {
        let number = at + 1;
        let name = limit.name();
        write!(out, " {number} {name}")?;
    }
    Ok(())
}

// The limits in force, one after the other.
fn write_in_force<W: Write>(out: &mut W, limits: &LimitsInForce) -> io::Result<()>
    ensures { OnOk result (Appends (W.contents out.old) (W.contents out.new) (numbered_text 1 (limits_of limits.now))) }
{
    match limits {
        LimitsInForce::Compulsory => write!(out, " 1 comfort 2 transition 3 azimuth 4 shift"),
        LimitsInForce::Named(limits) => write_numbered(out, limits.as_slice()),
    }
}

// The line of the limits in force.
fn write_limits<W: Write>(out: &mut W, limits: &LimitsInForce) -> io::Result<()>
    ensures { OnOk result (Appends (W.contents out.old) (W.contents out.new) (as_line (limits_heading (limits_of limits.now)))) }
{
    write!(out, "limits:")?;
    write_in_force(out, limits)?;
    writeln!(out)
}

impl Report<'_> {
    // The rows of the table, a line each.
    fn write_rows<W: Write>(&self, out: &mut W) -> io::Result<()>
        ensures { OnOk result (WritesText (TableOf self.now.road.now self.now.limits.now 0 (map row_of self.now.rows.now)) (W.contents out.old) (W.contents out.new)) }
    {
        for (position, record) in self.rows.iter().enumerate() {
            let row = TableRow::of(position, record.read(), self.road, self.limits);
            writeln!(out, "{row}")?;
        }
        Ok(())
    }

    // What stands above the rows.
    fn write_heading<W: Write>(&self, out: &mut W) -> io::Result<()>
        ensures { OnOk result (Appends (W.contents out.old) (W.contents out.new) (heading_of self.now)) }
    {
        let sheet = SheetHeading {
            fitted: self.fitted,
            count: self.rows.len(),
        };
        writeln!(out, "{}", RoadHeading(self.road))?;
        writeln!(out, "{sheet}")?;
        write_limits(out, self.limits)?;
        writeln!(
            out,
            "\n row  kind           length    radius      turn         p     entry         A      exit         A     least  governed by\n                          m         m       gon         %         m         m         m         m         m"
        )
    }

    /// Writes the sheet as a table: its road, mark and limits, the names of the columns, a line for each row, and an empty line.
    pub fn write_table<W: Write>(&self, out: &mut W) -> io::Result<()>
        ensures { OnOk result (WritesText (SheetTable self.now.road.now self.now.fitted (map row_of self.now.rows.now) self.now.limits.now) (W.contents out.old) (W.contents out.new)) }
    {
        self.write_heading(out)?;
        self.write_rows(out)?;
        writeln!(out)
    }

    // Findings, a line each.
    fn write_lines<W: Write>(&self, out: &mut W, findings: &[Finding]) -> io::Result<()>
        ensures { OnOk result (WritesText (LinesOf self.now.road.now self.now.limits.now self.now.rows.now finding_line findings.now) (W.contents out.old) (W.contents out.new)) }
    {
        for finding in findings {
            let explained = explained(*finding, self.road, self.rows, self.limits);
            writeln!(out, "{}", FindingLine(explained))?;
        }
        Ok(())
    }

    /// Writes findings as a check answers them, a line each: lengths in mm, turns in ten-thousandths of a gon.
    pub fn write_explained<W: Write>(&self, out: &mut W, findings: &[Finding]) -> io::Result<()>
        ensures { OnOk result (WritesText (LinesOf self.now.road.now self.now.limits.now self.now.rows.now explained_text findings.now) (W.contents out.old) (W.contents out.new)) }
    {
        for finding in findings {
            let explained = explained(*finding, self.road, self.rows, self.limits);
            writeln!(out, "{explained}")?;
        }
        Ok(())
    }

    /// Writes how many findings there are, and a line for each: lengths in metres, turns in gon.
    pub fn write_findings<W: Write>(&self, out: &mut W, findings: &[Finding]) -> io::Result<()>
        ensures { OnOk result (WritesText (FindingsBelow self.now.road.now self.now.limits.now self.now.rows.now findings.now) (W.contents out.old) (W.contents out.new)) }
    {
        let found = Counted {
            count: findings.len(),
            what: "finding",
        };
        writeln!(out, "{found}")?;
        self.write_lines(out, findings)
    }
}
