//! The figures of the rules: the tests of rules 2, 5, 6, 8 and 9 with the least and the greatest number that keep each, and the numbers that rules 10, 11 and 12 advise.
//! Lengths and radii are in mm, turns in ten-thousandths of a gon.
#![tactic(auto)]

pub mod lengths;
pub mod radii;
pub mod range;
pub mod runs;

pub use lengths::LengthRange;
pub use range::NextRadius;

/// Rule 12 (4.4.8): the least turn that is advised, ten-thousandths of a gon.
pub const ADVISED_TURN: u32 = 20_000;
