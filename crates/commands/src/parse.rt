//! A line's words, read as a command.
ghost use Rattle.std.specs.Prelude.{◌≡◌, ◌+◌, ◌<◌, ◌≤◌, ◌⊎◌, length, MatchResult, OnOk};
ghost use Rattle.commands.specs.declared.mistake.Expected.TheVariants as want;
ghost use Rattle.commands.specs.declared.name.Name.TheVariants as name;
ghost use Rattle.commands.specs.Words.{word};
ghost use Rattle.commands.specs.Names.{name_of, name_word};
ghost use Rattle.commands.specs.Mistakes.{Blames, IsThere, WrongAt, WrongWhere, WrongBehind, BeforeAt, NamesBefore, LimitAt};
ghost use Rattle.commands.specs.Said.{BeforeFrom, IsBare, ReadAs, Parsed, Answers};

use crate::command::{Command, SheetCommand};
use crate::mistake::{Expected, ParseError};
use crate::name::Name;
use crate::operand::{FileName, Operand};
use limit_names::LimitName;
use plain::NewRow;
use road::RoadDesign;

/// The most words of a line that are read, more than any command but `limit` has. A `limit` line of so many may have been cut, and is wrong (the office's own).
pub const MOST_WORDS: usize = 64;

// The words of a line, and the position of the one that is read next.
#[derive(Drop)]
struct Cursor<'w, 'a> {
    words: &'w [&'a str],
    at: usize,
    ghost within: { at ≤ length words.now },
}

impl<'a> Cursor<'_, 'a> {
    // The word at the position, or the line's end, is not what was expected.
    fn wrong(&self, expected: Expected) -> ParseError<'a>
        ensures blames { Blames self.now.words.now result }
        ensures expects { (result.at ≡ self.now.at + 1) × (result.expected ≡ expected) }
    {
        ParseError {
            at: self.at + 1,
            word: self.words.get(self.at).copied(),
            expected,
        }
    }

    // Reads the word at the position.
    fn operand<T: Operand>(&mut self) -> Result<T, ParseError<'a>>
        ensures read { MatchResult result (λ x. T.says (word self.old.words.now self.old.at) x × IsThere self.old.words.now self.old.at T.expects) (WrongAt self.old.words.now (self.old.at + 1) T.expects) }
        ensures next { OnOk result ((self.new.words ≡ self.old.words) × (self.new.at ≡ self.old.at + 1)) }
    {
        let value = self
            .words
            .get(self.at)
            .and_then(|word| T::read(word))
            .ok_or_else(|| self.wrong(T::expected()))?;
        self.at += 1;
        Ok(value)
    }

    // That the line ends at the position.
    fn end(&self) -> Result<(), ParseError<'a>>
        ensures { MatchResult result (λ _. length self.now.words.now ≡ self.now.at) (WrongAt self.now.words.now (self.now.at + 1) want.EndOfLine) }
    {
        if self.at < self.words.len() {
            return Err(self.wrong(Expected::EndOfLine));
        }
        Ok(())
    }

    // Reads `before N`, or nothing where the line ends at the position.
    fn before(&mut self) -> Result<Option<u32>, ParseError<'a>>
        ensures { MatchResult result (BeforeFrom self.old.words.now self.old.at) (WrongWhere self.old.words.now (BeforeAt self.old.words.now self.old.at)) }
    {
        match self.words.get(self.at) {
            None => return Ok(None),
            Some(&"before") => self.at += 1,
            Some(_) => return Err(self.wrong(Expected::Before)),
        }
        let row = self.operand()?;
        self.end()?;
        Ok(Some(row))
    }

    // Reads a command that has no operands.
    fn bare(&self, command: Command) -> Result<Command, ParseError<'a>>
        requires named { (self.now.at ≡ 1) × (word self.now.words.now 0 ≡ name_word (name_of command)) }
        requires alone { IsBare self.now.words.now command }
        ensures { ReadAs (name_of command) self.now.words.now result }
    {
        self.end()?;
        Ok(command)
    }

    // Reads a road's design.
    fn road(&mut self) -> Result<Command, ParseError<'a>>
        requires { (self.old.at ≡ 1) × (word self.old.words.now 0 ≡ name_word name.Road) }
        ensures { ReadAs name.Road self.old.words.now result }
    {
        let design = RoadDesign {
            class: self.operand()?,
            speed: self.operand()?,
            edge: self.operand()?,
            lanes: self.operand()?,
            choice: self.operand()?,
        };
        self.end()?;
        Ok(Command::Road(design))
    }

    // Reads the radius and the turn of a curve.
    fn label(&mut self) -> Result<Command, ParseError<'a>>
        requires { (self.old.at ≡ 1) × (word self.old.words.now 0 ≡ name_word name.Label) }
        ensures { ReadAs name.Label self.old.words.now result }
    {
        let radius = self.operand()?;
        let turn = self.operand()?;
        self.end()?;
        Ok(Command::Label { radius, turn })
    }

    // Reads a straight row, and where it is put.
    fn straight(&mut self) -> Result<Command, ParseError<'a>>
        requires { (self.old.at ≡ 1) × (word self.old.words.now 0 ≡ name_word name.Straight) }
        ensures { ReadAs name.Straight self.old.words.now result }
    {
        let length = self.operand()?;
        let row = NewRow::Straight { length };
        let before = self.before()?;
        Ok(Command::Sheet(SheetCommand::Add { row, before }))
    }

    // Reads a curve row, and where it is put.
    fn curve(&mut self) -> Result<Command, ParseError<'a>>
        requires { (self.old.at ≡ 1) × (word self.old.words.now 0 ≡ name_word name.Curve) }
        ensures { ReadAs name.Curve self.old.words.now result }
    {
        let sense = self.operand()?;
        let radius = self.operand()?;
        let turn = self.operand()?;
        let row = NewRow::Curve {
            sense,
            radius,
            turn,
        };
        let before = self.before()?;
        Ok(Command::Sheet(SheetCommand::Add { row, before }))
    }

    // Reads the number of a row.
    fn remove(&mut self) -> Result<Command, ParseError<'a>>
        requires { (self.old.at ≡ 1) × (word self.old.words.now 0 ≡ name_word name.Remove) }
        ensures { ReadAs name.Remove self.old.words.now result }
    {
        let row = self.operand()?;
        self.end()?;
        Ok(Command::Sheet(SheetCommand::Remove { row }))
    }

    // Reads the number of a row and two lengths.
    fn set(&mut self) -> Result<Command, ParseError<'a>>
        requires { (self.old.at ≡ 1) × (word self.old.words.now 0 ≡ name_word name.Set) }
        ensures { ReadAs name.Set self.old.words.now result }
    {
        let row = self.operand()?;
        let entry = self.operand()?;
        let exit = self.operand()?;
        self.end()?;
        Ok(Command::Sheet(SheetCommand::Set { row, entry, exit }))
    }

    // Reads the number of a row and an end of its curve.
    fn parameter(&mut self) -> Result<Command, ParseError<'a>>
        requires { (self.old.at ≡ 1) × (word self.old.words.now 0 ≡ name_word name.Parameter) }
        ensures { ReadAs name.Parameter self.old.words.now result }
    {
        let row = self.operand()?;
        let at = self.operand()?;
        self.end()?;
        Ok(Command::Sheet(SheetCommand::Parameter { row, at }))
    }

    // Reads a limit's name, and the name of a file after `table`.
    fn limit_name(&mut self) -> Result<(), ParseError<'a>>
        requires { (1 ≤ self.old.at) × ((self.old.at ≡ 1) ⊎ (self.old.at < length self.old.words.now)) × NamesBefore self.old.words.now (self.old.at + 1) × (length self.old.words.now < 64) }
        ensures read { MatchResult result (λ _. NamesBefore self.new.words.now (self.new.at + 1)) (WrongBehind self.old.words.now (LimitAt self.old.words.now)) }
        ensures next { OnOk result ((self.new.words ≡ self.old.words) × (self.old.at < self.new.at)) }
    {
        let LimitName::Table = self.operand()? else {
            return Ok(());
        };
        let FileName = self.operand()?;
        Ok(())
    }

    // Reads the names of limits. A line of 64 words may have been cut.
    fn limit(&mut self) -> Result<Command, ParseError<'a>>
        requires { (self.old.at ≡ 1) × (word self.old.words.now 0 ≡ name_word name.Limit) }
        ensures { ReadAs name.Limit self.old.words.now result }
    {
        if self.words.len() >= MOST_WORDS {
            self.at = MOST_WORDS - 1;
            return Err(self.wrong(Expected::EndOfLine));
        }
        self.limit_name()?;
        while self.at < self.words.len() {
            self.limit_name()?;
        }
        Ok(Command::Limit)
    }
}

// The command that the words say.
fn command<'a>(words: &[&'a str]) -> Result<Command, ParseError<'a>>
    ensures { Parsed words.now result }
{
    let mut cursor = Cursor { words, at: 0 };
    match cursor.operand()? {
        Name::Road => cursor.road(),
        Name::Label => cursor.label(),
        Name::Straight => cursor.straight(),
        Name::Curve => cursor.curve(),
        Name::Remove => cursor.remove(),
        Name::Set => cursor.set(),
        Name::Rows => cursor.bare(Command::Rows),
        Name::Report => cursor.bare(Command::Report),
        Name::Limit => cursor.limit(),
        Name::Check => cursor.bare(Command::Sheet(SheetCommand::Check)),
        Name::Fit => cursor.bare(Command::Sheet(SheetCommand::Fit)),
        Name::Parameter => cursor.parameter(),
        Name::Reopen => cursor.bare(Command::Sheet(SheetCommand::Reopen)),
    }
}

/// The command that the words of a line say; `None` where there are none, and where the first begins with '#'.
///
/// An error names the first word that is wrong, and what should have stood there; the words then say no command.
pub fn parse<'a>(words: &[&'a str]) -> Result<Option<Command>, ParseError<'a>>
    ensures { Answers words.now result }
{
    match words {
        [] => Ok(None),
        [first, ..] if first.starts_with('#') => Ok(None),
        _ => Ok(Some(command(words)?)),
    }
}
