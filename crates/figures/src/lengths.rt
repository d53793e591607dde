//! The lengths of clothoids: rules 2, 5 and 6.
ghost use Rattle.std.specs.Prelude.{◌≡◌, Decides};
ghost use Rattle.limits.specs.Least.{Smallest};
ghost use Rattle.figures.specs.Lengths.{AtMostHalfMore, Harmonious, ArcBeside, LeavesArc, Greatest, Exactly, longest_length_lem, least_beside_lem, longest_beside_lem, longest_pair_lem};
ghost use Rattle.figures.specs.Tests.{exceeds_longest_lem, are_harmonious_lem, leaves_no_arc_lem};

use rows::Curve;

// Rule 6: what an arc has to turn for each mm of its clothoids, by the printed 31.83 for 100/π.
const ARC: u64 = 318_300;

/// Rule 2 (4.4.4): the longest clothoid where the least that is admitted has that length.
pub fn longest_length(least: u32) -> u64
    ensures value { result ≡ longest_length_lem least }
    ensures greatest { Greatest (AtMostHalfMore least) result }
{
    3 * least as u64 / 2
}

/// Rule 2 (4.4.4): whether a clothoid of that length is longer than the longest, by the least length that is admitted.
#[inline(always)]
pub fn exceeds_longest(least: u32, length: u32) -> bool
    ensures value { result ≡ exceeds_longest_lem least length }
    ensures decides { Decides result (AtMostHalfMore least length → ⊥) }
{
    3 * (least as u64) < 2 * (length as u64)
}

/// The lengths from one to another.
#[derive(Clone, Copy, Debug, PartialEq, Eq)]
pub struct LengthRange {
    /// The least of them, mm.
    pub least: u64,
    /// The longest of them, mm.
    pub longest: u64,
}

/// Rule 5 (the office's own): the least length in harmony with a neighbour of that length, two thirds of it, rounded up.
#[inline(always)]
pub fn least_beside(length: u32) -> u32
    ensures value { result ≡ least_beside_lem length }
    ensures least { Smallest (Harmonious length) result }
{
    ((2 * length as u64 + 2) / 3) as u32
}

/// Rule 5 (the office's own): the longest length in harmony with a neighbour of that length, one and a half times it, rounded down.
#[inline(always)]
pub fn longest_beside(length: u32) -> u64
    ensures value { result ≡ longest_beside_lem length }
    ensures greatest { Greatest (Harmonious length) result }
{
    3 * length as u64 / 2
}

/// Rule 5 (the office's own): the entries that are in harmony with the exit before.
pub fn harmonious_entries(exit: u32) -> LengthRange
    ensures least { result.least ≡ least_beside_lem exit }
    ensures longest { result.longest ≡ longest_beside_lem exit }
    ensures harmonious { Exactly (Harmonious exit) result.least result.longest }
{
    LengthRange {
        least: least_beside(exit) as u64,
        longest: longest_beside(exit),
    }
}

/// Rule 5 (the office's own): whether an exit and the next entry are in harmony.
#[inline(always)]
pub fn are_harmonious(exit: u32, entry: u32) -> bool
    ensures value { result ≡ are_harmonious_lem exit entry }
    ensures decides { Decides result (Harmonious exit entry) }
{
    let exit = exit as u64;
    let entry = entry as u64;
    2 * entry <= 3 * exit && 2 * exit <= 3 * entry
}

/// Rule 6 (4.4.7): the longest that a curve's entry and exit can be together, so that an arc is left.
#[inline(always)]
pub fn longest_pair(curve: Curve) -> u64
    ensures value { result ≡ longest_pair_lem curve }
    ensures greatest { Greatest (ArcBeside curve) result }
{
    (curve.turn as u64 * curve.radius as u64 - 1) / ARC
}

/// Rule 6 (4.4.7): whether a curve's clothoids leave no arc.
#[inline(always)]
pub fn leaves_no_arc(curve: Curve) -> bool
    ensures value { result ≡ leaves_no_arc_lem curve }
    ensures decides { Decides result (LeavesArc curve → ⊥) }
{
    let clothoids = curve.entry as u64 + curve.exit as u64;
    curve.turn as u64 * curve.radius as u64 <= ARC * clothoids
}
