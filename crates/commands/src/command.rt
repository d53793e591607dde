//! What a line can say.
ghost use Rattle.std.specs.Prelude.{◌≡◌};
ghost use Rattle.commands.specs.Names.{name_of_call};

use crate::name::Name;
use plain::NewRow;
use road::RoadDesign;
use rows::End;

/// What a line asks of the open sheet. Numbers are as the line has them: no range is tested, and no row need be there.
#[derive(Clone, Copy, Debug, PartialEq, Eq)]
pub enum SheetCommand {
    /// Adds a row.
    Add {
        /// The row.
        row: NewRow,
        /// The number of the row that it is put before, counted from 0; `None` puts it behind the last.
        before: Option<u32>,
    },
    /// Takes a row out.
    Remove {
        /// The row's number, counted from 0.
        row: u32,
    },
    /// Sets both clothoid lengths of a curve.
    Set {
        /// The row's number, counted from 0.
        row: u32,
        /// The length of the clothoid at the entry, mm.
        entry: u32,
        /// The length of the clothoid at the exit, mm.
        exit: u32,
    },
    /// Asks for the findings.
    Check,
    /// Gives the curves their least lengths.
    Fit,
    /// Asks for the parameter of a clothoid of a curve.
    Parameter {
        /// The row's number, counted from 0.
        row: u32,
        /// The end of the curve that has the clothoid.
        at: End,
    },
    /// Makes a draft of the sheet again.
    Reopen,
}

impl SheetCommand {
    /// The name that the line of the call begins with.
    pub fn name(&self) -> Name
        ensures { result ≡ name_of_call self.now }
    {
        match self {
            SheetCommand::Add { row, .. } => match row {
                NewRow::Straight { .. } => Name::Straight,
                NewRow::Curve { .. } => Name::Curve,
            },
            SheetCommand::Remove { .. } => Name::Remove,
            SheetCommand::Set { .. } => Name::Set,
            SheetCommand::Check => Name::Check,
            SheetCommand::Fit => Name::Fit,
            SheetCommand::Parameter { .. } => Name::Parameter,
            SheetCommand::Reopen => Name::Reopen,
        }
    }
}

/// What a line says: a call of the open sheet, or one of the commands that open a road, choose limits or list what is there.
#[derive(Clone, Copy, Debug, PartialEq, Eq)]
pub enum Command {
    /// Opens a road, in place of the one before.
    Road(RoadDesign),
    /// Asks for the label of a curve on the open road.
    Label {
        /// The curve's radius, mm.
        radius: u32,
        /// The curve's turn, ten-thousandths of a gon.
        turn: u32,
    },
    /// Asks something of the open sheet.
    Sheet(SheetCommand),
    /// Asks for the rows.
    Rows,
    /// Asks for the whole sheet as a table.
    Report,
    /// Chooses the limits, by the names that the words after the first are.
    Limit,
}
