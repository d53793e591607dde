// The call that a command asks of the open sheet, and how the line of it fares.
ghost use Rattle.std.specs.Prelude.{◌≡◌, List, ℕ};
ghost use Rattle.findings.specs.declared.finding.Finding.{Finding};
ghost use Rattle.series.specs.Calls.{asked, told};
ghost use Rattle.desk.specs.Calls.{meant, asks, verdict_of};

use answers::Verdict;
use choice::LimitsInForce;
use commands::SheetCommand;
use series::{Call, Outcome};

// The call under the limits, with all the space that there is for findings. A command has numbers as a line gives them, a call also the limits and the space.
pub(crate) fn call_of<'a>(
    command: SheetCommand,
    limits: &'a LimitsInForce,
    space: usize,
) -> Call<&'a LimitsInForce>
    ensures { (count : ℕ) → asked meant space count result ≡ asks limits.now space count command }
{
    match command {
        SheetCommand::Add { row, before } => Call::Add {
            before: before.map(|position| position as usize),
            row,
        },
        SheetCommand::Remove { row } => Call::TakeOut { row: row as usize },
        SheetCommand::Set { row, entry, exit } => Call::SetLengths {
            row: row as usize,
            entry,
            exit,
        },
        SheetCommand::Check => Call::Check {
            limit: limits,
            space,
        },
        SheetCommand::Fit => Call::Fit { limit: limits },
        SheetCommand::Parameter { row, at } => Call::Parameter {
            row: row as usize,
            at,
        },
        SheetCommand::Reopen => Call::Reopen,
    }
}

// How the line of a call fares that comes out so.
pub(crate) fn verdict(outcome: Outcome) -> Verdict
    ensures { (findings : List Finding) → result ≡ verdict_of (told outcome findings) }
{
    match outcome {
        Outcome::Done | Outcome::Found(_) | Outcome::Parameter(_) => Verdict::Answered,
        Outcome::Refused(_) => Verdict::Refused,
        Outcome::Barred => Verdict::Wrong,
    }
}
