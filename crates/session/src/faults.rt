//! How many lines were refused and how many were wrong, with the first of each.
ghost use Rattle.std.specs.Prelude.{◌≡◌, Some};
ghost use Rattle.std.specs.Fmt.{WritesOnOk};
ghost use Rattle.std.specs.Process.{exit_status};
ghost use Rattle.session.specs.Faults.{one_more, counted, any, tally_text, faults_text, status_of};

use answers::Verdict;
use std::fmt;
use std::process::ExitCode;

/// How many lines fared so, and which was the first of them.
#[derive(Clone, Copy, PartialEq, Eq, Debug)]
pub struct Tally {
    /// how many, one at least
    pub lines: u64,
    /// the number of the first, from 1 on
    pub first: u64,
}

/// Those lines of an input that were not answered.
#[derive(Clone, Copy, PartialEq, Eq, Debug)]
pub struct Faults {
    /// the lines that say what cannot be asked
    pub wrong: Option<Tally>,
    /// the lines that the rules refuse
    pub refused: Option<Tally>,
}

// A line more.
fn one_more(line: u64, tally: Option<Tally>) -> Option<Tally>
    ensures { result ≡ one_more line tally }
{
    match tally {
        None => Some(Tally {
            lines: 1,
            first: line,
        }),
        Some(tally) => Some(Tally {
            lines: tally.lines.saturating_add(1),
            first: tally.first,
        }),
    }
}

impl Faults {
    /// No line was refused or wrong.
    pub const NONE: Faults = Faults {
        wrong: None,
        refused: None,
    };

    // Counts how a line fared.
    pub(crate) fn count(self, verdict: Verdict, line: u64) -> Faults
        ensures { result ≡ counted verdict line self }
    {
        match verdict {
            Verdict::Answered => self,
            Verdict::Refused => Faults {
                wrong: self.wrong,
                refused: one_more(line, self.refused),
            },
            Verdict::Wrong => Faults {
                wrong: one_more(line, self.wrong),
                refused: self.refused,
            },
        }
    }

    /// Whether a line was refused or wrong.
    pub fn any(&self) -> bool
        ensures { result ≡ any self.now }
    {
        self.wrong.is_some() || self.refused.is_some()
    }

    /// The exit status: 1 where a line was wrong, 2 where lines were refused and none was wrong, and otherwise 0.
    pub fn status(&self) -> ExitCode
        ensures { exit_status result ≡ status_of self.now }
    {
        match (self.wrong, self.refused) {
            (None, None) => ExitCode::from(0),
            (None, Some(_)) => ExitCode::from(2),
            (Some(_), _) => ExitCode::from(1),
        }
    }
}

// Shows a tally of lines that fared so.
fn write_tally<W: fmt::Write>(f: &mut fmt::Formatter<W>, tally: Tally, how: &str) -> fmt::Result
    ensures { WritesOnOk W.write_str_gives f.old result (tally_text tally how.now) f.new }
{
    let lines = tally.lines;
    let first = tally.first;
    if lines == 1 {
        write!(f, "1 line is {how} (line {first})")
    } else {
        write!(f, "{lines} lines are {how} (the first is line {first})")
    }
}

impl fmt::Display for Faults {
    ghost output = { λ faults. Some (faults_text faults) };

    fn fmt<W: fmt::Write>(&self, f: &mut fmt::Formatter<W>) -> fmt::Result {
        match (self.wrong, self.refused) {
            (None, None) => Ok(()),
            (None, Some(refused)) => write_tally(f, refused, "refused"),
            (Some(wrong), None) => write_tally(f, wrong, "wrong"),
            (Some(wrong), Some(refused)) => {
                write_tally(f, wrong, "wrong")?;
                f.write_str(", ")?;
                write_tally(f, refused, "refused")
            }
        }
    }
}
