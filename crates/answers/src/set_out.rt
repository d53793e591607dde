//! A row of the setting-out list.
ghost use Rattle.std.specs.Prelude.{Some};
ghost use Rattle.answers.specs.Shown.{set_out_text};
ghost use Rattle.answers.specs.SetOut.{SetsOut};

use roots::clothoid_parameter;
use rows::Row;
use std::fmt;

/// What is set out of a row. Lengths and parameters are in mm, and positions are counted from 0.
#[derive(Clone, Copy, PartialEq, Eq, Debug)]
pub enum SetOut {
    /// A straight.
    Straight {
        /// The position of the row.
        position: usize,
        /// Its length.
        length: u32,
    },
    /// A curve, by its clothoids.
    Curve {
        /// The position of the row.
        position: usize,
        /// The length of the clothoid at the entry.
        entry: u32,
        /// Its parameter, 0 where it has no length.
        entry_parameter: u32,
        /// The length of the clothoid at the exit.
        exit: u32,
        /// Its parameter, 0 where it has no length.
        exit_parameter: u32,
    },
}

impl SetOut {
    /// What is set out of the row at the position, each clothoid with its parameter, rounded up to a mm (the office's own).
    pub fn of(position: usize, row: Row) -> SetOut
        ensures { SetsOut position row result }
    {
        match row {
            Row::Straight(straight) => SetOut::Straight {
                position,
                length: straight.length,
            },
            Row::Curve(curve) => SetOut::Curve {
                position,
                entry: curve.entry,
                entry_parameter: clothoid_parameter(curve.radius, curve.entry),
                exit: curve.exit,
                exit_parameter: clothoid_parameter(curve.radius, curve.exit),
            },
        }
    }
}

/// Shows a straight as `S N LENGTH`, and a curve as `V N ENTRY A EXIT A`.
impl fmt::Display for SetOut {
    ghost output = { λ line. Some (set_out_text line) };

    fn fmt<W: fmt::Write>(&self, f: &mut fmt::Formatter<W>) -> fmt::Result {
        match self {
            SetOut::Straight { position, length } => write!(f, "S {position} {length}"),
            SetOut::Curve {
                position,
                entry,
                entry_parameter,
                exit,
                exit_parameter,
            } => write!(
                f,
                "V {position} {entry} {entry_parameter} {exit} {exit_parameter}"
            ),
        }
    }
}
