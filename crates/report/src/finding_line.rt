//! A finding as a line below the table.
ghost use Rattle.std.specs.Prelude.{Some};
ghost use Rattle.report.specs.Findings.{finding_line};

use findings::Finding;
use std::fmt;
use wording::{Explained, InMetres};

/// A finding as a report has it: `row ROW, rule RULE, WEIGHT: ` and what decides it, in metres and gon.
#[derive(Clone, Copy)]
pub struct FindingLine<'a>(pub Explained<'a>);

impl fmt::Display for FindingLine<'_> {
    ghost output = { λ line. Some (finding_line line.0) };

    fn fmt<W: fmt::Write>(&self, f: &mut fmt::Formatter<W>) -> fmt::Result {
        let Finding {
            row,
            rule,
            weight,
            ..
        } = self.0.finding;
        let reason = InMetres(self.0);
        write!(f, "row {row}, rule {rule}, {weight}: {reason}")
    }
}
