// Limits that a line names, with the clients' tables that it names read from their files.
ghost use Rattle.std.specs.Prelude.{◌≡◌, ◌+◌, ◌^◌, ◌<◌, ◌≤◌, length, drop, vec_items, IfOk, MatchResult};
ghost use Rattle.commands.specs.Names.{Names};
ghost use Rattle.session.specs.declared.limit_words.NoTable.TheVariants.{Unreadable};
ghost use Rattle.session.specs.LimitWords.{WholeTable, LargeIn, no_table_text, NamedFirst, NamesLimits, OfFile, Reads};

use choice::ChosenLimit;
use limit_names::{LimitName, limit_name};
use std::alloc::{AllocError, Global};
use std::error::Error;
use std::io::Read;
use std::{fmt, fs, io};

// The largest file that is read as a client's table, in bytes.
const LARGEST_TABLE: u64 = 64_000_000;

// Why limits cannot be had.
#[derive(Debug, Drop)]
pub(crate) enum NoLimits<'a> {
    // the file that a word of the line names, whose number is counted from 1
    Unreadable {
        at: usize,
        file: &'a str,
        why: String,
    },
    NoMemory(AllocError),
}

// Why a table cannot be had.
#[derive(Debug, Drop)]
enum NoTable {
    Unreadable(io::Error),
    TooLarge,
}

impl From<io::Error> for NoTable {
    ghost from_gives = { λ why none. none ≡ Unreadable why };

    fn from(why: io::Error) -> NoTable {
        NoTable::Unreadable(why)
    }
}

impl fmt::Display for NoTable {
    ghost output = { no_table_text };

    fn fmt<W: fmt::Write>(&self, f: &mut fmt::Formatter<W>) -> fmt::Result {
        match self {
            NoTable::Unreadable(why) => write!(f, "{why}"),
            NoTable::TooLarge => write!(f, "it is larger than {LARGEST_TABLE} bytes"),
        }
    }
}

impl Error for NoTable {}

// All bytes of a reader, where they are no more than the largest table has.
fn table_bytes<R: Read + Drop>(heap: Global, reader: R) -> Result<Vec<u8>, NoTable>
    ensures few { IfOk result (λ bytes. length (vec_items bytes) ≤ 64_000_000) }
    ensures all { MatchResult result (λ bytes. WholeTable (R.remaining reader) (vec_items bytes)) (LargeIn (R.remaining reader)) }
{
    let mut bytes = Vec::new(heap);
    reader.take(LARGEST_TABLE + 1).read_to_end(&mut bytes)?;
    if bytes.len() as u64 > LARGEST_TABLE {
        return Err(NoTable::TooLarge);
    }
    Ok(bytes)
}

// The bytes of a client's file.
fn table(rt: &HostRuntime, file: &str) -> Result<Vec<u8>, NoTable>
    ensures { IfOk result (λ bytes. length (vec_items bytes) ≤ 64_000_000) }
{
    table_bytes(rt.alloc(), fs::open(rt, file)?)
}

// That the file of a word cannot be read, with the reason in words; or that there is no memory for these.
fn unreadable(heap: Global, at: usize, file: &str, why: NoTable) -> NoLimits<'_>
    ensures { Reads at file.now (no_table_text why) result }
{
    match why.to_string(heap) {
        Ok(why) => NoLimits::Unreadable { at, file, why },
        Err(failed) => NoLimits::NoMemory(failed),
    }
}

// The limit that the first of the words names, whose number in the line is handed in, and how many words that takes.
fn first_limit<'a>(
    rt: &HostRuntime,
    at: usize,
    words: &[&'a str],
) -> Result<(ChosenLimit, usize), NoLimits<'a>>
    requires some { 0 < length words.now }
    requires names { Names words.now }
    requires small { at + 1 < 2 ^ 64 }
    ensures taken { IfOk result (λ p. (0 < p.1) × (p.1 ≤ length words.now)) }
    ensures named { MatchResult result (λ p. NamedFirst words.now p.0 (drop p.1 words.now) × Names (drop p.1 words.now)) (λ e. OfFile at words.now e) }
{
    let limit = match limit_name(words[0]) {
        Some(LimitName::Comfort) => ChosenLimit::Comfort,
        Some(LimitName::Transition) => ChosenLimit::Transition,
        Some(LimitName::Azimuth) => ChosenLimit::Azimuth,
        Some(LimitName::Shift) => ChosenLimit::Shift,
        Some(LimitName::Fifth) => ChosenLimit::FifthOfTurn,
        Some(LimitName::Table) | None => {
            let file = words[1];
            return match table(rt, file) {
                Ok(bytes) => Ok((ChosenLimit::Table(bytes), 2)),
                Err(why) => Err(unreadable(rt.alloc(), at + 1, file, why)),
            };
        }
    };
    Ok((limit, 1))
}

// The limits that the words name, in their order; the first of them is word 2 of its line.
pub(crate) fn named_limits<'a>(
    rt: &HostRuntime,
    words: &[&'a str],
) -> Result<Vec<ChosenLimit>, NoLimits<'a>>
    requires { Names words.now }
    ensures { MatchResult result (λ limits. NamesLimits words.now (vec_items limits)) (λ e. OfFile 2 words.now e) }
{
    let mut limits = Vec::new(rt.alloc());
    let mut named = 0;
    while named < words.len() {
        let (limit, taken) = first_limit(rt, named + 2, &words[named..])?;
        limits
            .push(limit)
            .map_err(|failed| NoLimits::NoMemory(AllocError::from(failed)))?;
        named += taken;
    }
    Ok(limits)
}
