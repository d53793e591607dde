// What is printed: the times in nanoseconds, what each check found, and the lengths after the fit.
use crate::rounds::{Found, Memory, Times};
use rows::Row;
use std::io;
use std::io::Write;

fn write_found<W: Write>(out: &mut W, found: &Found) -> io::Result<()> {
    let count = found.count;
    writeln!(out, "findings {count}")?;
    for finding in found.findings.as_slice().iter().take(found.count) {
        let row = finding.row;
        let rule = finding.rule;
        let side = finding.side;
        let weight = finding.weight;
        writeln!(out, "{row} {rule} {side} {weight}")?;
    }
    Ok(())
}

fn write_lengths<W: Write>(out: &mut W, memory: &Memory) -> io::Result<()> {
    for (row, record) in memory.rows.as_slice().iter().take(memory.count).enumerate() {
        if let Row::Curve(curve) = record.read() {
            let entry = curve.entry;
            let exit = curve.exit;
            writeln!(out, "{row} {entry} {exit}")?;
        }
    }
    Ok(())
}

pub(crate) fn write_report<W: Write>(
    out: &mut W,
    times: &Times,
    memory: &Memory,
) -> io::Result<()> {
    let add = times.add.as_nanos();
    let draft_check = times.draft_check.as_nanos();
    let fit = times.fit.as_nanos();
    let fitted_check = times.fitted_check.as_nanos();
    writeln!(out, "add {add}")?;
    writeln!(out, "check of the draft {draft_check}")?;
    writeln!(out, "fit {fit}")?;
    writeln!(out, "check of the fitted {fitted_check}")?;
    write_found(out, &memory.draft)?;
    writeln!(out, "lengths")?;
    write_lengths(out, memory)?;
    write_found(out, &memory.fitted)?;
    out.flush()
}
