//! A session answers the lines of an input, one after the other: it is a desk, the number of the line that came last, and those lines that were refused or wrong.
#![tactic(auto)]

pub mod faults;
mod limit_words;
mod line;

ghost use Rattle.std.specs.Prelude.{◌≡◌, List, ℕ, IfOk, OnOk};
ghost use Rattle.std.specs.Io.KnownBytes.{Appends};
ghost use Rattle.session.specs.Lines.{bytes_of};
ghost use Rattle.session.specs.Inputs.{Begun, LineDone, faults_of};
ghost use Rattle.session.specs.Sheets.{LinesMakeHistory};

use desk::Desk;
pub use faults::{Faults, Tally};
use line::answer;
use std::alloc::{AllocError, Global};
use std::io;
use std::io::Write;

/// What the lines of an input so far have left: the desk, how many lines there were, and which of them were refused or wrong.
#[derive(Drop)]
pub struct Session {
    desk: Desk,
    lines: u64,
    faults: Faults,
}

impl Session {
    /// A session before its first line, with no sheet open. That its lines make a history of the plain sheet is said here, once for all.
    pub fn new(heap: Global) -> Result<Session, AllocError>
        ensures begun { IfOk result Begun }
        ensures history { LinesMakeHistory }
    {
        Ok(Session {
            desk: Desk::new(heap)?,
            lines: 0,
            faults: Faults::NONE,
        })
    }

    /// The lines so far that were refused or wrong.
    pub fn faults(&self) -> Faults
        ensures { result ≡ faults_of self.now }
    {
        self.faults
    }

    /// Answers the next line, as bytes without the newline; `None` is a line that is too long. A line that is refused or wrong says so, changes nothing and is counted.
    /// An error is the machine's: what could not be written, or memory that could not be had.
    pub fn line<W: Write>(
        &mut self,
        rt: &HostRuntime,
        out: &mut W,
        line: Option<&[u8]>,
    ) -> io::Result<()>
        ensures { OnOk result ((text : List ℕ) × LineDone (bytes_of line.entry) self.old self.new text × Appends (W.contents out.old) (W.contents out.new) text) }
    {
        let first = self.lines == 0;
        self.lines = self.lines.saturating_add(1);
        let verdict = answer(rt, &mut self.desk, out, self.lines, first, line)?;
        self.faults = self.faults.count(verdict, self.lines);
        Ok(())
    }
}
