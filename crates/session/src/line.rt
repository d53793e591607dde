// What a line does on the desk, and what is written of it.
ghost use Rattle.std.specs.Prelude.{◌≡◌, ◌<◌, List, ℕ, IfOk, OnOk, drop, length};
ghost use Rattle.std.specs.Io.KnownBytes.{Appends};
ghost use Rattle.commands.specs.Names.{Names};
ghost use Rattle.session.specs.Lines.{told_text, verdict_on, comment_bytes, Unmarked, RoadLeft, LabelLeft, RowsLeft, LimitLeft, CommandLeft, TextLeft, BytesLeft, LineLeft, bytes_of};
ghost use Rattle.session.specs.LimitWords.{echo};
ghost use Rattle.desk.specs.Desk.{sheet_on};
ghost use Rattle.report.specs.Tables.{as_line};
ghost use Rattle.desk.specs.Texts.{wrong_line};

use crate::limit_words::{NoLimits, named_limits};
use answers::{Failure, LineAnswer, RefusedLine, Verdict};
use commands::parse::parse;
use commands::{Command, MOST_WORDS, Name};
use desk::Desk;
use road::RoadDesign;
use std::io;
use std::io::Write;
use text::{LONGEST_LINE, Shown, words_of};

// Whether the first byte after white space is '#'.
fn is_comment(bytes: &[u8]) -> bool
    ensures { result ≡ comment_bytes bytes.now }
{
    matches!(bytes.trim_ascii_start(), [b'#', ..])
}

// The bytes without the byte order mark that some editors put at the front of a file.
fn without_mark(bytes: &[u8]) -> &[u8]
    ensures { Unmarked bytes.now result.now }
{
    bytes.strip_prefix(b"\xef\xbb\xbf").unwrap_or(bytes)
}

// Writes what a command answers at its line, and says how the line fares.
fn tell<W: Write>(
    out: &mut W,
    line: u64,
    command: Command,
    answer: Result<LineAnswer, Failure>,
) -> io::Result<Verdict>
    ensures { IfOk result (λ verdict. (verdict ≡ verdict_on answer) × Appends (W.contents out.old) (W.contents out.new) (told_text line command answer)) }
{
    match answer {
        Ok(answer) => {
            writeln!(out, "{answer}")?;
            Ok(Verdict::Answered)
        }
        Err(Failure::Refused(refusal)) => {
            let refused = RefusedLine {
                refusal,
                command,
                line,
            };
            writeln!(out, "{refused}")?;
            Ok(Verdict::Refused)
        }
        Err(failure @ (Failure::NoRoad(_) | Failure::Fitted(_) | Failure::Draft(_))) => {
            writeln!(out, "error {line}: {failure}")?;
            Ok(Verdict::Wrong)
        }
    }
}

// Opens a road.
fn open<W: Write>(
    desk: &mut Desk,
    out: &mut W,
    line: u64,
    design: RoadDesign,
) -> io::Result<Verdict>
    ensures { IfOk result (λ verdict. (text : List ℕ) × RoadLeft line desk.old desk.new text verdict design × Appends (W.contents out.old) (W.contents out.new) text) }
{
    let answer = desk.open(design);
    tell(out, line, Command::Road(design), answer)
}

// The label of a curve on the open road.
fn label<W: Write>(
    desk: &Desk,
    out: &mut W,
    line: u64,
    radius: u32,
    turn: u32,
) -> io::Result<Verdict>
    ensures { IfOk result (λ verdict. (text : List ℕ) × LabelLeft line desk.now desk.now text verdict radius turn × Appends (W.contents out.old) (W.contents out.new) text) }
{
    let answer = desk.label(radius, turn);
    tell(out, line, Command::Label { radius, turn }, answer)
}

// Lists the rows of the open sheet.
fn rows<W: Write>(desk: &Desk, out: &mut W, line: u64) -> io::Result<Verdict>
    ensures { IfOk result (λ verdict. (text : List ℕ) × RowsLeft line desk.now desk.now text verdict (sheet_on desk.now) × Appends (W.contents out.old) (W.contents out.new) text) }
{
    if let Err(no_road) = desk.opened(Name::Rows) {
        writeln!(out, "error {line}: {no_road}")?;
        return Ok(Verdict::Wrong);
    }
    desk.write_rows(out)?;
    Ok(Verdict::Answered)
}

// Writes words as they are shown, with one space between them.
fn write_words<W: Write>(out: &mut W, words: &[&str]) -> io::Result<()>
    ensures { OnOk result (Appends (W.contents out.old) (W.contents out.new) (as_line (echo words.now))) }
{
    if let [first, rest @ ..] = words {
        write!(out, "{}", Shown(first))?;
        for word in rest {
            write!(out, " {}", Shown(word))?;
        }
    }
    writeln!(out)
}

// Puts the limits that the words after the first name in force for the open sheet.
fn limit<W: Write>(
    rt: &HostRuntime,
    desk: &mut Desk,
    out: &mut W,
    line: u64,
    words: &[&str],
) -> io::Result<Verdict>
    requires { (0 < length words.now) × Names (drop 1 words.now) }
    ensures { IfOk result (λ verdict. (text : List ℕ) × LimitLeft line desk.old desk.new text verdict words.now (sheet_on desk.old) × Appends (W.contents out.old) (W.contents out.new) text) }
{
    if let Err(no_road) = desk.opened(Name::Limit) {
        writeln!(out, "error {line}: {no_road}")?;
        return Ok(Verdict::Wrong);
    }
    match named_limits(rt, &words[1..]) {
        Ok(limits) => {
            desk.choose(limits);
            write_words(out, words)?;
            Ok(Verdict::Answered)
        }
        Err(NoLimits::Unreadable { at, file, why }) => {
            let file = Shown(file);
            let why = why.as_str();
            writeln!(
                out,
                "error {line}: word {at} is \"{file}\", a file that cannot be read: {why}; the limits stay as they were"
            )?;
            Ok(Verdict::Wrong)
        }
        Err(NoLimits::NoMemory(failed)) => Err(io::Error::from(failed)),
    }
}

// Does what the words say.
fn command<W: Write>(
    rt: &HostRuntime,
    desk: &mut Desk,
    out: &mut W,
    line: u64,
    words: &[&str],
    command: Command,
) -> io::Result<Verdict>
    requires { command ≡ Command.Limit → (0 < length words.now) × Names (drop 1 words.now) }
    ensures { IfOk result (λ verdict. (text : List ℕ) × CommandLeft line desk.old desk.new text verdict words.now command × Appends (W.contents out.old) (W.contents out.new) text) }
{
    match command {
        Command::Road(design) => open(desk, out, line, design),
        Command::Label { radius, turn } => label(desk, out, line, radius, turn),
        Command::Sheet(command) => desk.call(out, line, command),
        Command::Rows => rows(desk, out, line),
        Command::Report => desk.report(out, line),
        Command::Limit => limit(rt, desk, out, line, words),
    }
}

// Reads a line of text.
#[tactic(auto, using(crate::proofs::Telling::nothing_more))]
fn text<W: Write>(
    rt: &HostRuntime,
    desk: &mut Desk,
    out: &mut W,
    line: u64,
    text: &str,
) -> io::Result<Verdict>
    ensures { IfOk result (λ verdict. (written : List ℕ) × TextLeft line desk.old desk.new written verdict text.now × Appends (W.contents out.old) (W.contents out.new) written) }
{
    let mut words = [""; MOST_WORDS];
    let count = words_of(text, &mut words);
    let words = &words[..count];
    match parse(words) {
        Ok(None) => Ok(Verdict::Answered),
        Ok(Some(said)) => command(rt, desk, out, line, words, said),
        Err(mistake) => {
            writeln!(out, "error {line}: {mistake}")?;
            Ok(Verdict::Wrong)
        }
    }
}

// Reads a line of bytes.
fn bytes<W: Write>(
    rt: &HostRuntime,
    desk: &mut Desk,
    out: &mut W,
    line: u64,
    bytes: &[u8],
) -> io::Result<Verdict>
    ensures { IfOk result (λ verdict. (written : List ℕ) × BytesLeft line desk.old desk.new written verdict bytes.now × Appends (W.contents out.old) (W.contents out.new) written) }
{
    match std::str::from_utf8(bytes) {
        Ok(line_text) => text(rt, desk, out, line, line_text),
        Err(_) if is_comment(bytes) => Ok(Verdict::Answered),
        Err(e) => {
            let valid = e.valid_up_to();
            writeln!(
                out,
                "error {line}: after {valid} bytes the line is not UTF-8 text: save the file as UTF-8"
            )?;
            Ok(Verdict::Wrong)
        }
    }
}

// Answers a line, as bytes without the newline, whose number is handed in; `None` is a line that is too long.
pub(crate) fn answer<W: Write>(
    rt: &HostRuntime,
    desk: &mut Desk,
    out: &mut W,
    number: u64,
    first: bool,
    line: Option<&[u8]>,
) -> io::Result<Verdict>
    ensures { IfOk result (λ verdict. (text : List ℕ) × LineLeft number desk.old desk.new text verdict first (bytes_of line.entry) × Appends (W.contents out.old) (W.contents out.new) text) }
{
    match line {
        None => {
            writeln!(
                out,
                "error {number}: the line is longer than {LONGEST_LINE} bytes"
            )?;
            Ok(Verdict::Wrong)
        }
        Some(whole) if first => bytes(rt, desk, out, number, without_mark(whole)),
        Some(whole) => bytes(rt, desk, out, number, whole),
    }
}
