//! A row of a sheet as a row of the table.
ghost use Rattle.std.specs.Prelude.{◌≡◌, Some};
ghost use Rattle.report.specs.Rows.{Tabulates, GovernsCurve};
ghost use Rattle.report.specs.Shown.{kind_text, governed_text, table_row_text};

use crate::column::{GonColumn, MetresColumn, PercentColumn};
use choice::{Governing, LimitsInForce};
use road::Road;
use roots::clothoid_parameter;
use rows::{Curve, Row, Sense};
use std::fmt;
use superelevation::superelevation;

/// What the table has of a row.
#[derive(Clone, Copy)]
pub enum TableRow {
    /// A straight.
    Straight {
        /// Its number, from 0.
        position: usize,
        /// mm, 1 to 20,000,000.
        length: u32,
    },
    /// A curve.
    Curve {
        /// Its number, from 0.
        position: usize,
        /// Its sense, radius, turn and lengths.
        curve: Curve,
        /// Hundredths of a percent (Table 4.5).
        superelevation: u32,
        /// The parameter of its entry clothoid, mm, rounded up.
        entry: u32,
        /// The parameter of its exit clothoid, mm, rounded up.
        exit: u32,
        /// The limit that governs the place of its clothoids (4.4.3), where it calls for them (4.4.1, 4.4.8).
        governing: Option<Governing>,
    },
}

// The limit that governs a curve, if it calls for clothoids.
fn governing_of(curve: &Curve, road: &Road, limits: &LimitsInForce) -> Option<Governing>
    ensures { GovernsCurve road.now limits.now curve.now result }
{
    if !curve.calls_for_clothoids(road) {
        return None;
    }
    limits.governing(&curve.place(road))
}

impl TableRow {
    /// The row of that number on a road, under the limits in force. No number is refused.
    pub fn of(position: usize, row: Row, road: &Road, limits: &LimitsInForce) -> TableRow
        ensures { Tabulates road.now limits.now position row result }
    {
        match row {
            Row::Straight(straight) => TableRow::Straight {
                position,
                length: straight.length,
            },
            Row::Curve(curve) => TableRow::Curve {
                position,
                curve,
                superelevation: superelevation(road.group, curve.radius),
                entry: clothoid_parameter(curve.radius, curve.entry),
                exit: clothoid_parameter(curve.radius, curve.exit),
                governing: governing_of(&curve, road, limits),
            },
        }
    }
}

// A curve with its sense, in eleven characters.
fn kind(sense: Sense) -> &'static str
    ensures { result.now ≡ kind_text sense }
{
    match sense {
        Sense::Left => "curve left ",
        Sense::Right => "curve right",
    }
}

// The least length of a place, and the limit that it comes from.
#[derive(Clone, Copy)]
struct Governed(Option<Governing>);

impl fmt::Display for Governed {
    ghost output = { λ governed. Some (governed_text governed.0) };

    fn fmt<W: fmt::Write>(&self, f: &mut fmt::Formatter<W>) -> fmt::Result {
        let Some(governing) = self.0 else {
            return f.write_str("         -  -");
        };
        let number = governing.number;
        let name = governing.name;
        match governing.least {
            Some(least) => write!(f, "{}  {number} {name}", MetresColumn(least)),
            None => write!(f, "      none  {number} {name}"),
        }
    }
}

impl fmt::Display for TableRow {
    ghost output = { λ row. Some (table_row_text row) };

    fn fmt<W: fmt::Write>(&self, f: &mut fmt::Formatter<W>) -> fmt::Result {
        match self {
            TableRow::Straight { position, length } => {
                let length = MetresColumn(*length);
                write!(f, "{position:>4}  straight   {length}")
            }
            TableRow::Curve {
                position,
                curve,
                superelevation,
                entry,
                exit,
                governing,
            } => {
                let kind = kind(curve.sense);
                let radius = MetresColumn(curve.radius);
                let turn = GonColumn(curve.turn);
                let p = PercentColumn(*superelevation);
                let entry_length = MetresColumn(curve.entry);
                let entry_parameter = MetresColumn(*entry);
                let exit_length = MetresColumn(curve.exit);
                let exit_parameter = MetresColumn(*exit);
                let governed = Governed(*governing);
                write!(
                    f,
                    "{position:>4}  {kind}          {radius}{turn}{p}{entry_length}{entry_parameter}{exit_length}{exit_parameter}{governed}"
                )
            }
        }
    }
}
