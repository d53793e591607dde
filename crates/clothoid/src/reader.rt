// Reads lines, and writes the answers of each part of the input before it asks for more.
ghost use Rattle.std.specs.Prelude.{◌≡◌, ◌<◌, ◌⊎◌, List, ℕ, ◌&&◌, T, OnOk, IfOk, IfSome, vec_len};
ghost use Rattle.std.specs.Io.KnownBytes.{Appends};
ghost use Rattle.text.specs.Lines.{ended_lines, last_line, unended};
ghost use Rattle.session.specs.Faults.{any};
ghost use Rattle.session.specs.Inputs.{InputAnswered, faults_of};
ghost use Rattle.clothoid.specs.Lines.{LinesAnswered};

use session::{Faults, Session};
use std::alloc::{AllocError, Global};
use std::io;
use std::io::{Read, Write};
use text::{Pending, split_line};

// How many bytes are asked for at a time.
const CHUNK: usize = 65_536;

/// Why an input is not answered to its end.
#[derive(Debug, Drop)]
pub enum Failed {
    /// It could not be read.
    Reading(io::Error),
    /// An answer could not be written, or memory ran out.
    Writing(io::Error),
}

impl From<io::Error> for Failed {
    fn from(why: io::Error) -> Failed {
        Failed::Writing(why)
    }
}

impl From<AllocError> for Failed {
    fn from(why: AllocError) -> Failed {
        Failed::Writing(io::Error::from(why))
    }
}

// Whether the program is to stop: at the first line that is refused or wrong, where that is asked.
fn stops(stop: bool, session: &Session) -> bool
    ensures { result ≡ stop && any (faults_of session.now) }
{
    stop && session.faults().any()
}

// Answers the lines that end in the chunk, unless it is to stop at one, and leaves what follows the last newline pending.
fn answer_chunk<W: Write>(
    rt: &HostRuntime,
    stop: bool,
    session: &mut Session,
    pending: &mut Pending,
    out: &mut W,
    chunk: &[u8],
) -> io::Result<()>
    ensures lines { OnOk result (LinesAnswered stop (ended_lines pending.old chunk.now) session.old session.new (W.contents out.old) (W.contents out.new)) }
    ensures rest { OnOk result (T (stop && any (faults_of session.new)) ⊎ (pending.new ≡ unended pending.old chunk.now)) }
{
    let mut rest = chunk;
    while let Some((line, next)) = split_line(rest) {
        if stops(stop, session) {
            return Ok(());
        }
        pending.add(line)?;
        session.line(rt, out, pending.line())?;
        pending.clear();
        rest = next;
    }
    pending.add(rest)?;
    Ok(())
}

// Room for a block of the input.
fn block(heap: Global) -> Result<Vec<u8>, AllocError>
    ensures { IfOk result (λ block. 0 < vec_len block) }
{
    vec![in heap; 0u8; CHUNK]
}

// Answers the lines of a reader that end in a newline, unless it is to stop at one, and leaves what follows the last newline pending.
fn answer_ended<R: Read, W: Write>(
    rt: &HostRuntime,
    stop: bool,
    session: &mut Session,
    pending: &mut Pending,
    reader: &mut R,
    out: &mut W,
) -> Result<(), Failed>
    ensures lines { OnOk result (IfSome (R.remaining reader.old) (λ input. LinesAnswered stop (ended_lines pending.old input) session.old session.new (W.contents out.old) (W.contents out.new))) }
    ensures rest { OnOk result (IfSome (R.remaining reader.old) (λ input. T (stop && any (faults_of session.new)) ⊎ (pending.new ≡ unended pending.old input))) }
{
    let mut buffer = block(rt.alloc())?;
    // counted, since a loop with no end would need the right to wait
    for _ in 0..u64::MAX {
        if stops(stop, session) {
            return Ok(());
        }
        let count = match reader.read(buffer.as_mut_slice()) {
            Ok(0) => return Ok(()),
            Ok(count) => count,
            Err(why) => return Err(Failed::Reading(why)),
        };
        answer_chunk(rt, stop, session, pending, out, &buffer.as_slice()[..count])?;
        out.flush()?;
    }
    Err(Failed::Reading(io::Error::from(io::ErrorKind::Other)))
}

// Answers the last line, which lacks its newline, where anything of it has come; unless it is to stop.
fn answer_last<W: Write>(
    rt: &HostRuntime,
    stop: bool,
    session: &mut Session,
    pending: &Pending,
    out: &mut W,
) -> io::Result<()>
    ensures { OnOk result (LinesAnswered stop (last_line pending.now) session.old session.new (W.contents out.old) (W.contents out.new)) }
{
    if pending.is_empty() || stops(stop, session) {
        return Ok(());
    }
    session.line(rt, out, pending.line())
}

/// Answers every line of the reader, the last also without a newline, unless it is to stop at one; and tells which were refused or wrong.
pub fn answer_all<R: Read, W: Write>(
    rt: &HostRuntime,
    stop: bool,
    reader: &mut R,
    out: &mut W,
) -> Result<Faults, Failed>
    ensures { IfOk result (λ faults. IfSome (R.remaining reader.old) (λ input. (text : List ℕ) × InputAnswered stop input text faults × Appends (W.contents out.old) (W.contents out.new) text)) }
{
    let mut session = Session::new(rt.alloc())?;
    let mut pending = Pending::new(rt.alloc());
    answer_ended(rt, stop, &mut session, &mut pending, reader, out)?;
    answer_last(rt, stop, &mut session, &pending, out)?;
    out.flush()?;
    Ok(session.faults())
}
