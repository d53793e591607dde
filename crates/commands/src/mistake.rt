//! Why a line is no command, and how that is shown.
ghost use Rattle.std.specs.Prelude.{◌≡◌, Some, map};
ghost use Rattle.std.specs.Fmt.{WritesOnOk};
ghost use Rattle.commands.specs.Shown.{between, expected_text, mistake_text, one_of, shown_word};

use crate::name::COMMAND_WORDS;
use limit_names::LIMIT_WORDS;
use std::error::Error;
use std::fmt::{self, Display};
use text::ShownChar;

/// What should have stood where the wrong word stands.
#[derive(Clone, Copy, PartialEq, Eq, Debug)]
pub enum Expected {
    /// The name of a command.
    Command,
    /// The class of a road.
    Class,
    /// A number of decimal digits.
    Number,
    /// Which of the two jerks a road has.
    JerkChoice,
    /// The side that a curve turns to.
    Sense,
    /// An end of a curve.
    End,
    /// The word `before`, or the end of the line.
    Before,
    /// The name of a limit.
    LimitName,
    /// The name of a file, which any word may be.
    FileName,
    /// No more words.
    EndOfLine,
}

/// Says what it is in plain words.
impl fmt::Display for Expected {
    ghost output = { λ expected. Some (expected_text expected) };

    fn fmt<W: fmt::Write>(&self, f: &mut fmt::Formatter<W>) -> fmt::Result {
        match self {
            Expected::Command => {
                f.write_str("a command: ")?;
                write_one_of(f, &COMMAND_WORDS)
            }
            Expected::Class => f.write_str("a class: A, M or C"),
            Expected::Number => f.write_str(
                "a whole number: digits alone, without a point or a unit",
            ),
            Expected::JerkChoice => f.write_str("usual or top"),
            Expected::Sense => f.write_str("left or right"),
            Expected::End => f.write_str("entry or exit"),
            Expected::Before => f.write_str("before, or the end of the line"),
            Expected::LimitName => {
                f.write_str("a limit: ")?;
                write_one_of(f, &LIMIT_WORDS)?;
                f.write_str(" FILE")
            }
            Expected::FileName => f.write_str("the name of a file"),
            Expected::EndOfLine => f.write_str("the end of the line"),
        }
    }
}

/// Why a line is no command: one of its words, the first that is wrong, is not what should have stood there.
#[derive(Clone, Copy, PartialEq, Eq, Debug)]
pub struct ParseError<'a> {
    /// The word's position, counted from 1.
    pub at: usize,
    /// The word; `None` where the line ends before it.
    pub word: Option<&'a str>,
    /// What should have stood there.
    pub expected: Expected,
}

/// Names the word and its position, and says what was expected; a word of more than 40 characters is shown by its front.
impl fmt::Display for ParseError<'_> {
    ghost output = { λ e. Some (mistake_text e.at e.word e.expected) };

    fn fmt<W: fmt::Write>(&self, f: &mut fmt::Formatter<W>) -> fmt::Result {
        let at = self.at;
        let expected = self.expected;
        let Some(word) = self.word else {
            return write!(f, "word {at} is missing, expected {expected}");
        };
        write!(f, "word {at} is '")?;
        write_short(f, word)?;
        write!(f, "', expected {expected}")
    }
}

impl Error for ParseError<'_> {}

// Writes the words of a table as a choice: "a, b or c".
fn write_one_of<N, W: fmt::Write>(f: &mut fmt::Formatter<W>, named: &[(N, &str)]) -> fmt::Result
    ensures { WritesOnOk W.write_str_gives f.old result (one_of (map (λ entry. entry.1.now) named.now)) f.new }
{
    let mut left = named;
    while let [(_, word), rest @ ..] = left {
        f.write_str(word)?;
        f.write_str(separator(rest))?;
        left = rest;
    }
    Ok(())
}

// What stands between a word of a choice and the rest of it.
fn separator<N>(rest: &[(N, &str)]) -> &'static str
    ensures { result.now ≡ between (map (λ entry. entry.1.now) rest.now) }
{
    match rest {
        [] => "",
        [_] => " or ",
        _ => ", ",
    }
}

// The most characters of a word that a message shows.
const MOST_SHOWN: usize = 40;

// Shows a word, or the front of a long one.
fn write_short<W: fmt::Write>(f: &mut fmt::Formatter<W>, word: &str) -> fmt::Result
    ensures { WritesOnOk W.write_str_gives f.old result (shown_word word.now) f.new }
{
    for c in word.chars().take(MOST_SHOWN) {
        ShownChar(c).fmt(f)?;
    }
    if word.chars().count() > MOST_SHOWN {
        f.write_str("..")?;
    }
    Ok(())
}
