//! A row as a line of print.
ghost use Rattle.std.specs.Prelude.{Some};
ghost use Rattle.answers.specs.Shown.{row_text};

use rows::Row;
use std::fmt;

/// A row with its position, which is no part of the row and is shown with it.
#[derive(Clone, Copy, Debug, PartialEq, Eq)]
pub struct ShownRow {
    /// The position of the row, counted from 0.
    pub position: usize,
    /// The row.
    pub row: Row,
}

/// Shows a straight as `straight N LENGTH`, and a curve as `curve N SENSE R W ENTRY EXIT`.
impl fmt::Display for ShownRow {
    ghost output = { λ shown. Some (row_text shown.position shown.row) };

    fn fmt<W: fmt::Write>(&self, f: &mut fmt::Formatter<W>) -> fmt::Result {
        let position = self.position;
        match self.row {
            Row::Straight(straight) => {
                let length = straight.length;
                write!(f, "straight {position} {length}")
            }
            Row::Curve(curve) => {
                let sense = curve.sense;
                let radius = curve.radius;
                let turn = curve.turn;
                let entry = curve.entry;
                let exit = curve.exit;
                write!(f, "curve {position} {sense} {radius} {turn} {entry} {exit}")
            }
        }
    }
}
