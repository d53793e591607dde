//! What a call gives back.
ghost use Rattle.std.specs.Prelude.{◌≡◌};
ghost use Rattle.series.specs.Calls.{found_in};

use findings::Finding;
use road::Refusal;

/// What a call of a sheet gives back when it is made as a value: what the sheet's own method gives, or that the sheet has no such method.
#[derive(Clone, Copy, PartialEq, Eq, Debug)]
pub enum Outcome {
    /// The call was carried out.
    Done,
    /// A check was: so many findings stand at the front of their memory.
    Found(usize),
    /// A parameter, mm.
    Parameter(u32),
    /// One of the twelve refusals. Nothing changed.
    Refused(Refusal),
    /// The sheet has no such call: it is a draft, or it is fitted. This is no refusal, and nothing changed.
    Barred,
}

impl Outcome {
    /// The findings of a check, at the front of their memory; there are none after any other outcome.
    pub fn found_in(self, memory: &[Finding]) -> &[Finding]
        ensures { result.now ≡ found_in self memory.now }
    {
        match self {
            Outcome::Found(count) => memory.get(..count).unwrap_or(memory),
            _ => &memory[..0],
        }
    }
}
