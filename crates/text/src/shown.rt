//! Text of any origin, as it is shown in a message: it cannot break a line or move the cursor.
ghost use Rattle.std.specs.Prelude.{Some};
ghost use Rattle.std.specs.Fmt.{WritesOnOk};
ghost use Rattle.text.specs.Shown.{shown_char, shown};

use std::fmt;

/// A character, which shows as itself; a control character shows as an escape.
#[derive(Clone, Copy, PartialEq, Eq, Debug)]
pub struct ShownChar(pub char);

impl fmt::Display for ShownChar {
    ghost output = { λ one. Some (shown_char one.0) };

    fn fmt<W: fmt::Write>(&self, f: &mut fmt::Formatter<W>) -> fmt::Result {
        write_char(f, self.0)
    }
}

/// A text, which shows character by character as `ShownChar` does.
#[derive(Clone, Copy, PartialEq, Eq, Debug)]
pub struct Shown<'a>(pub &'a str);

impl fmt::Display for Shown<'_> {
    ghost output = { λ text. Some (shown text.0.now) };

    fn fmt<W: fmt::Write>(&self, f: &mut fmt::Formatter<W>) -> fmt::Result {
        write_text(f, self.0)
    }
}

// Writes a character as it is shown.
fn write_char<W: fmt::Write>(f: &mut fmt::Formatter<W>, c: char) -> fmt::Result
    ensures { WritesOnOk W.write_str_gives f.old result (shown_char c) f.new }
{
    if c.is_control() {
        for e in c.escape_default() {
            f.write_char(e)?;
        }
        return Ok(());
    }
    f.write_char(c)
}

// Writes a text as it is shown.
fn write_text<W: fmt::Write>(f: &mut fmt::Formatter<W>, text: &str) -> fmt::Result
    ensures { WritesOnOk W.write_str_gives f.old result (shown text.now) f.new }
{
    for c in text.chars() {
        write_char(f, c)?;
    }
    Ok(())
}
