//! The names of the limits, as a line of input and a report have them.
//! Each name's word stands once, in `LIMIT_WORDS`: reading, showing and the messages take it from there.
#![tactic(auto)]

ghost use Rattle.std.specs.Prelude.{◌≡◌, Some, MatchOption};
ghost use Rattle.limit_names.specs.Names.{ALimit, limit_word};

use std::fmt;

/// The name of a limit: the four that the Norma makes compulsory, the one that it advises, and a client's own.
#[derive(Clone, Copy, PartialEq, Eq, Debug)]
pub enum LimitName {
    /// The limit of comfort, 4.4.3.1.
    Comfort,
    /// The limit of the superelevation's transition, 4.4.3.2.
    Transition,
    /// The limit of the azimuth, 4.4.3.3.
    Azimuth,
    /// The limit of the shift, 4.4.3.3.
    Shift,
    /// The advice of a fifth of the turn, 4.4.3.3.
    Fifth,
    /// A client's table, which a line names with its file (the office's own).
    Table,
}

/// Every name with its word, in the order of the enum, which is that of the messages.
pub const LIMIT_WORDS: [(LimitName, &str); 6] = [
    (LimitName::Comfort, "comfort"),
    (LimitName::Transition, "transition"),
    (LimitName::Azimuth, "azimuth"),
    (LimitName::Shift, "shift"),
    (LimitName::Fifth, "fifth"),
    (LimitName::Table, "table"),
];

impl LimitName {
    /// The word that names the limit in a line and in a report.
    pub fn word(self) -> &'static str
        ensures { result.now ≡ limit_word self }
    {
        let (_, word) = LIMIT_WORDS[self as usize];
        word
    }
}

/// The limit that a word names; `None` where it names none.
pub fn limit_name(word: &str) -> Option<LimitName>
    ensures { MatchOption result (ALimit word.now → ⊥) (λ name. word.now ≡ limit_word name) }
{
    let (name, _) = *LIMIT_WORDS.iter().find(|(_, named)| *named == word)?;
    Some(name)
}

/// Shows the word.
impl fmt::Display for LimitName {
    ghost output = { λ name. Some (limit_word name) };

    fn fmt<W: fmt::Write>(&self, f: &mut fmt::Formatter<W>) -> fmt::Result {
        f.write_str(self.word())
    }
}
