//! A finding with what it speaks of, and how it is shown.
use crate::sentence::Sentence;
use findings::Finding;
use road::Road;
use rows::RowRecord;
use std::fmt;
use units::Scale;

/// A finding with the sheet that it speaks of. It is shown as a check answers it: `finding ROW RULE SIDE WEIGHT: ` and what decides it, in mm and ten-thousandths of a gon.
#[derive(Clone, Copy)]
pub struct Explained<'a> {
    /// The finding.
    pub finding: Finding,
    /// The road of the sheet.
    pub road: &'a Road,
    /// The rows of the sheet, the finding's row among them.
    pub rows: &'a [RowRecord],
    /// The least length that is admitted for the clothoids of the finding's row, mm, if there is one. Only rules 1 and 2 speak of it.
    pub least: Option<u32>,
}

impl fmt::Display for Explained<'_> {
    ghost use Rattle.std.specs.Prelude.{Some};
    ghost use Rattle.wording.specs.Lines.{explained_text};

    ghost output = { λ explained. Some (explained_text explained) };

    fn fmt<W: fmt::Write>(&self, f: &mut fmt::Formatter<W>) -> fmt::Result {
        let Finding {
            row,
            rule,
            side,
            weight,
        } = self.finding;
        let sentence = Sentence {
            reason: self.reason(),
            scale: Scale::Millimetres,
        };
        write!(f, "finding {row} {rule} {side} {weight}: {sentence}")
    }
}
