//! The names of commands, each the first word of its lines.
ghost use Rattle.std.specs.Prelude.{◌≡◌, Some, MatchOption};
ghost use Rattle.commands.specs.Names.{ACommand, name_word};

use std::fmt;

/// The name of a command.
#[derive(Clone, Copy, PartialEq, Eq, Debug)]
pub enum Name {
    /// Opens a road.
    Road,
    /// Asks what a curve has on the road.
    Label,
    /// Adds a straight.
    Straight,
    /// Adds a curve.
    Curve,
    /// Takes a row out.
    Remove,
    /// Sets the lengths of a curve by hand.
    Set,
    /// Lists the rows.
    Rows,
    /// Shows the sheet as a table, with its findings.
    Report,
    /// Chooses the limits.
    Limit,
    /// Lists the findings.
    Check,
    /// Gives the curves their least lengths.
    Fit,
    /// Asks for a parameter.
    Parameter,
    /// Makes a draft of a fitted sheet.
    Reopen,
}

/// Every name with its word, in the order of the enum, which is that of the messages.
pub const COMMAND_WORDS: [(Name, &str); 13] = [
    (Name::Road, "road"),
    (Name::Label, "label"),
    (Name::Straight, "straight"),
    (Name::Curve, "curve"),
    (Name::Remove, "remove"),
    (Name::Set, "set"),
    (Name::Rows, "rows"),
    (Name::Report, "report"),
    (Name::Limit, "limit"),
    (Name::Check, "check"),
    (Name::Fit, "fit"),
    (Name::Parameter, "parameter"),
    (Name::Reopen, "reopen"),
];

impl Name {
    /// The word that a line of the command begins with.
    pub fn word(self) -> &'static str
        ensures { result.now ≡ name_word self }
    {
        let (_, word) = COMMAND_WORDS[self as usize];
        word
    }

    /// The name of the command whose lines begin with the word; `None` where no command's do.
    pub fn of(word: &str) -> Option<Name>
        ensures { MatchOption result (ACommand word.now → ⊥) (λ name. word.now ≡ name_word name) }
    {
        let (name, _) = *COMMAND_WORDS.iter().find(|(_, named)| *named == word)?;
        Some(name)
    }
}

/// Shows the word.
impl fmt::Display for Name {
    ghost output = { λ name. Some (name_word name) };

    fn fmt<W: fmt::Write>(&self, f: &mut fmt::Formatter<W>) -> fmt::Result {
        f.write_str(self.word())
    }
}
