//! The line that is being read.
ghost use Rattle.std.specs.Prelude.{◌≡◌, ◌≤◌, None, Some, [], ◌∷◌, ◌++◌, length, Decides, MatchOption, IfSome, OnOk, OnErr};
ghost use Rattle.text.specs.Lines.{Grown, NoNewline, WithinLongest};

use std::alloc::{AllocError, Global};
use std::marker::Model;

/// The bytes before the first newline, and those after it, if there is one.
pub fn split_line(bytes: &[u8]) -> Option<(&[u8], &[u8])>
    ensures { MatchOption result (NoNewline bytes.now) (λ p. (bytes.now ≡ p.0.now ++ (10 ∷ p.1.now)) × NoNewline p.0.now) }
{
    let newline = bytes.iter().position(|b| *b == b'\n')?;
    Some((&bytes[..newline], &bytes[newline + 1..]))
}

/// The longest line that is read, in bytes without its newline: the office's own.
pub const LONGEST_LINE: usize = 16_384;

/// The line that is being read, as far as it has come: its bytes up to `LONGEST_LINE`. Past that it is too long, and nothing of it is kept.
#[derive(Drop)]
pub struct Pending {
    heap: Global,
    front: Option<Vec<u8>>,
}

impl Model for Pending {
    ghost use Rattle.std.specs.Prelude.{ℕ, List, Option, vec_items};
    ghost use Rattle.std.specs.Option.{option_map};
    ghost use Rattle.text.specs.Lines.{WithinLongest};

    ghost Value = { Option (List ℕ) };

    ghost view = { λ p. option_map vec_items p.front };

    ghost invariant = { λ p. WithinLongest (option_map vec_items p.front) };
}

impl Pending {
    /// A line of which nothing has come.
    pub fn new(heap: Global) -> Pending
        ensures { result ≡ Some [] }
    {
        Pending {
            heap,
            front: Some(Vec::new(heap)),
        }
    }

    /// Adds what came next of the line. Where memory is short nothing is added.
    pub fn add(&mut self, part: &[u8]) -> Result<(), AllocError>
        ensures ok { OnOk result (Grown self.old part.now self.new) }
        ensures err { OnErr result (self.new ≡ self.old) }
        ensures within { WithinLongest self.old }
    {
        let Some(front) = &mut self.front else {
            return Ok(());
        };
        if part.len() > LONGEST_LINE - front.len() {
            self.front = None;
            return Ok(());
        }
        front.extend_from_slice(part)
    }

    /// Whether nothing of the line has come.
    pub fn is_empty(&self) -> bool
        ensures { Decides result (self.now ≡ Some []) }
    {
        self.front.as_ref().is_some_and(|front| front.is_empty())
    }

    /// The line, or `None` where it is too long.
    pub fn line(&self) -> Option<&[u8]>
        ensures line { MatchOption result (self.now ≡ None) (λ line. self.now ≡ Some line.now) }
        ensures within { IfSome result (λ line. length line.now ≤ 16_384) }
    {
        self.front.as_deref()
    }

    /// Begins the next line.
    pub fn clear(&mut self)
        ensures { self.new ≡ Some [] }
    {
        self.front.get_or_insert(Vec::new(self.heap)).clear();
    }
}
