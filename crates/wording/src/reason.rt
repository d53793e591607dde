//! Why a finding is given: what decides it, with its figures. Lengths and radii in mm, turns in ten-thousandths of a gon.
use crate::neighbours::Neighbour;
use figures::NextRadius;
use rows::{Curve, End};

/// A clothoid of a curve.
#[derive(Clone, Copy, PartialEq, Eq, Debug)]
pub struct Clothoid {
    /// Which end of the curve it stands at.
    pub end: End,
    /// mm, 0 to 2,000,000.
    pub length: u32,
}

/// A radius that is not one of those that may follow the neighbour's (4.5).
#[derive(Clone, Copy, Debug, PartialEq, Eq)]
pub struct Disagreement {
    /// The side of the curve: at the exit the radii are judged in the return sense.
    pub end: End,
    /// The radius of the finding's row, mm.
    pub radius: u32,
    /// The next curve at that side.
    pub neighbour: Neighbour,
    /// The radii that may follow the neighbour's over the run between.
    pub range: NextRadius,
}

/// What decides a finding: a case for each rule, with the figures that it is about. Lengths, radii and runs in mm, turns in ten-thousandths of a gon.
#[derive(Clone, Copy, Debug, PartialEq, Eq)]
pub enum Reason {
    /// Rule 1 (4.4.3): a clothoid that is not admitted, and the least length that is, if there is one.
    Unadmitted {
        clothoid: Clothoid,
        least: Option<u32>,
    },
    /// Rule 2 (4.4.4): a clothoid above 3/2 of the least admitted length, which is given too.
    TooLong {
        clothoid: Clothoid,
        least: Option<u32>,
    },
    /// Rule 3, the office's own: a clothoid on a curve that calls for none.
    Uncalled(Clothoid),
    /// Rule 4 (4.4.6): a curve whose entry and exit differ, in groups 1 and 2.
    Unequal(Curve),
    /// Rule 5, the office's own: an entry too short or too long beside the exit of the curve before.
    Disharmony {
        before: Neighbour,
        entry: u32,
    },
    /// Rule 6 (4.4.7): a curve whose clothoids leave no arc.
    NoArc(Curve),
    /// Rule 7 (4.3.2): a radius below the road's least.
    TightRadius {
        radius: u32,
        least: u32,
    },
    /// Rule 8 (4.5): a radius that does not agree with its neighbour's.
    Disagreeing(Disagreement),
    /// Rule 9 (4.4.8): a curve of a small turn, and the least radius that is wide enough for it.
    SmallTurn {
        curve: Curve,
        least: u64,
    },
    /// Rule 10 (4.2.1): a run that is short between two curves, and the shortest that is advised there.
    ShortRun {
        run: u64,
        same_sense: bool,
        shortest: u64,
    },
    /// Rule 11 (4.2.1): a long run, and the longest that is advised.
    LongRun {
        run: u64,
        longest: u64,
    },
    /// Rule 12 (4.4.8): a turn below the least that is advised, 2 gon.
    SlightTurn {
        turn: u32,
    },
}
