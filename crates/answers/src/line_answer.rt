//! What a command answers, and how it is shown.
ghost use Rattle.std.specs.Prelude.{Some};
ghost use Rattle.std.specs.Fmt.{WritesOnOk};
ghost use Rattle.answers.specs.Shown.{length_text, road_text, label_text, answer_text};

use label::Label;
use road::Road;
use rows::End;
use std::fmt;

/// What a line is answered where nothing is wrong with it: the last line of its answer, behind a list if it has one.
#[derive(Clone, Copy, Debug, PartialEq, Eq)]
pub enum LineAnswer {
    /// The road is open.
    Opened(Road),
    /// The label of a curve on the open road.
    Labelled {
        /// The curve's radius, mm.
        radius: u32,
        /// The curve's turn, ten-thousandths of a gon.
        turn: u32,
        /// What the curve has there.
        label: Label,
    },
    /// A row is added.
    Added {
        /// Its number, counted from 0.
        row: usize,
    },
    /// A row is taken out.
    Removed {
        /// The number that it had, counted from 0.
        row: usize,
    },
    /// The clothoid lengths of a curve are set.
    LengthsSet {
        /// The number of its row, counted from 0.
        row: usize,
    },
    /// The sheet is checked.
    Found {
        /// How many findings there are.
        count: usize,
    },
    /// The curves have their least lengths.
    Fitted {
        /// How many rows the sheet has.
        count: usize,
    },
    /// The parameter of a clothoid of a curve.
    Parameter {
        /// The number of the curve's row, counted from 0.
        row: usize,
        /// The end of the curve that has the clothoid.
        at: End,
        /// The parameter, mm.
        parameter: u32,
    },
    /// The sheet is a draft again.
    Reopened,
}

// A length, or that there is none.
#[derive(Clone, Copy)]
struct OrNone(Option<u32>);

impl fmt::Display for OrNone {
    ghost output = { λ length. Some (length_text length.0) };

    fn fmt<W: fmt::Write>(&self, f: &mut fmt::Formatter<W>) -> fmt::Result {
        match self.0 {
            Some(length) => write!(f, "{length}"),
            None => f.write_str("none"),
        }
    }
}

// Writes the line of a road that is opened.
fn write_road<W: fmt::Write>(f: &mut fmt::Formatter<W>, road: &Road) -> fmt::Result
    ensures { WritesOnOk W.write_str_gives f.old result (road_text road.now) f.new }
{
    let class = road.class;
    let speed = road.speed;
    let group = road.group.number();
    let least = road.least_radius;
    write!(
        f,
        "opened {class}-{speed} group {group} least radius {least}"
    )
}

// Writes the line of a label.
fn write_label<W: fmt::Write>(
    f: &mut fmt::Formatter<W>,
    radius: u32,
    turn: u32,
    label: &Label,
) -> fmt::Result
    ensures { WritesOnOk W.write_str_gives f.old result (label_text radius turn label.now) f.new }
{
    let p = label.superelevation;
    let comfort = OrNone(label.comfort);
    let transition = OrNone(label.transition);
    let azimuth = OrNone(label.azimuth);
    let shift = OrNone(label.shift);
    let fifth = OrNone(label.fifth);
    let least = OrNone(label.least);
    let parameter = OrNone(label.parameter);
    write!(
        f,
        "label {radius} {turn} p {p} comfort {comfort} transition {transition} azimuth {azimuth} shift {shift} fifth {fifth} least {least} A {parameter}"
    )
}

/// Shows the line, without its newline: lengths, radii and parameters in mm, turns in ten-thousandths of a gon.
impl fmt::Display for LineAnswer {
    ghost output = { λ answer. Some (answer_text answer) };

    fn fmt<W: fmt::Write>(&self, f: &mut fmt::Formatter<W>) -> fmt::Result {
        match self {
            LineAnswer::Opened(road) => write_road(f, road),
            LineAnswer::Labelled {
                radius,
                turn,
                label,
            } => write_label(f, *radius, *turn, label),
            LineAnswer::Added { row } => write!(f, "added {row}"),
            LineAnswer::Removed { row } => write!(f, "removed {row}"),
            LineAnswer::LengthsSet { row } => write!(f, "set {row}"),
            LineAnswer::Found { count } => write!(f, "findings {count}"),
            LineAnswer::Fitted { count } => write!(f, "fitted {count}"),
            LineAnswer::Parameter { row, at, parameter } => write!(
                f,
                "parameter {row} {at} {parameter}"
            ),
            LineAnswer::Reopened => f.write_str("reopened"),
        }
    }
}
