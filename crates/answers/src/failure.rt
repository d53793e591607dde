//! Why a command has no answer, and how that is shown.
ghost use Rattle.std.specs.Prelude.{◌≡◌, Some};
ghost use Rattle.answers.specs.Shown.{failure_text};
ghost use Rattle.answers.specs.declared.failure.Failure.TheVariants.{Refused};

use commands::Name;
use road::Refusal;
use std::error::Error;
use std::fmt;

/// Why a command has no answer.
#[derive(Clone, Copy, PartialEq, Eq, Debug)]
pub enum Failure {
    /// The rules do not have what it asks.
    Refused(Refusal),
    /// The command of this name speaks of the open road, and there is none.
    NoRoad(Name),
    /// The command of this name is for a draft, and the sheet is fitted.
    Fitted(Name),
    /// The command of this name is for a fitted sheet, and the sheet is a draft.
    Draft(Name),
}

impl From<Refusal> for Failure {
    ghost from_gives = { λ reason failure. failure ≡ Refused reason };

    fn from(reason: Refusal) -> Failure {
        Failure::Refused(reason)
    }
}

/// Shows a refusal by its number, the row that it names and its reason; of the others what is wrong and what would be right.
impl fmt::Display for Failure {
    ghost output = { λ failure. Some (failure_text failure) };

    fn fmt<W: fmt::Write>(&self, f: &mut fmt::Formatter<W>) -> fmt::Result {
        match self {
            Failure::Refused(refusal) => {
                let number = refusal.number();
                let row = refusal.row();
                write!(f, "refused {number} {row}: {refusal}")
            }
            Failure::NoRoad(name) => write!(
                f,
                "word 1 is '{name}', and no road is open: begin with road CLASS SPEED B LANES usual|top"
            ),
            Failure::Fitted(name) => write!(
                f,
                "word 1 is '{name}', and the sheet is fitted: reopen it first"
            ),
            Failure::Draft(name) => write!(
                f,
                "word 1 is '{name}', and the sheet is a draft: fit it first"
            ),
        }
    }
}

impl Error for Failure {}
