//! A refusal of what a line asks, and how that is shown.
ghost use Rattle.std.specs.Prelude.{◌≡◌, Some};
ghost use Rattle.std.specs.Fmt.{WritesOnOk};
ghost use Rattle.answers.specs.Refused.{above_longest, call_value_text, refused_text, value_text};

use commands::{Command, SheetCommand};
use limits::LONGEST_CLOTHOID;
use plain::NewRow;
use road::Refusal;
use std::fmt;

/// A line whose command the rules refuse.
#[derive(Clone, Copy, Debug, PartialEq, Eq)]
pub struct RefusedLine {
    /// Why.
    pub refusal: Refusal,
    /// What was asked.
    pub command: Command,
    /// The number of the line, counted from 1.
    pub line: u64,
}

// Of two lengths that are set by hand, the one that is refused: the entry, unless only the exit is above the longest.
fn above_longest(entry: u32, exit: u32) -> u32
    ensures { result ≡ above_longest entry exit }
{
    if entry > LONGEST_CLOTHOID {
        entry
    } else {
        exit
    }
}

// Writes the value that was refused, where there is one.
fn write_value<W: fmt::Write>(
    f: &mut fmt::Formatter<W>,
    refusal: Refusal,
    command: Command,
) -> fmt::Result
    ensures { WritesOnOk W.write_str_gives f.old result (value_text refusal command) f.new }
{
    match command {
        Command::Road(design) => match refusal {
            Refusal::NoSuchRoad => {
                let class = design.class;
                let speed = design.speed;
                write!(f, ", and are {class} and {speed}")
            }
            Refusal::EdgeOrLanes => {
                let edge = design.edge;
                let lanes = design.lanes;
                write!(f, ", and are {edge} and {lanes}")
            }
            _ => Ok(()),
        },
        Command::Label { radius, turn } => match refusal {
            Refusal::Radius { .. } => write!(f, ", and is {radius}"),
            Refusal::Turn { .. } => write!(f, ", and is {turn}"),
            _ => Ok(()),
        },
        Command::Sheet(call) => write_value_of_call(f, refusal, call),
        Command::Rows | Command::Report | Command::Limit => Ok(()),
    }
}

// The same of a call of the open sheet.
fn write_value_of_call<W: fmt::Write>(
    f: &mut fmt::Formatter<W>,
    refusal: Refusal,
    call: SheetCommand,
) -> fmt::Result
    ensures { WritesOnOk W.write_str_gives f.old result (call_value_text refusal call) f.new }
{
    match (refusal, call) {
        (
            Refusal::StraightLength { .. },
            SheetCommand::Add {
                row: NewRow::Straight { length },
                ..
            },
        ) => { write!(f, ", and is {length}") }
        (
            Refusal::Radius { .. },
            SheetCommand::Add {
                row: NewRow::Curve { radius, .. },
                ..
            },
        ) => { write!(f, ", and is {radius}") }
        (
            Refusal::Turn { .. },
            SheetCommand::Add {
                row: NewRow::Curve { turn, .. },
                ..
            },
        ) => { write!(f, ", and is {turn}") }
        (Refusal::HandLength { .. }, SheetCommand::Set { entry, exit, .. }) => {
            let length = above_longest(entry, exit);
            write!(f, ", and is {length}")
        }
        (Refusal::NoSuchRow { row }, _) => write!(f, ", and is {row}"),
        _ => Ok(()),
    }
}

/// Shows the refusal's number, its row and its reason, the value that was refused where there is one, and the line.
impl fmt::Display for RefusedLine {
    ghost output = { λ refused. Some (refused_text refused.refusal refused.command refused.line) };

    fn fmt<W: fmt::Write>(&self, f: &mut fmt::Formatter<W>) -> fmt::Result {
        let refusal = self.refusal;
        let number = refusal.number();
        let row = refusal.row();
        let line = self.line;
        write!(f, "refused {number} {row}: {refusal}")?;
        write_value(f, refusal, self.command)?;
        write!(f, " (line {line})")
    }
}
