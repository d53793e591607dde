// What the rows of a sheet ask of their clothoids.
ghost use Rattle.std.specs.Prelude.{◌≡◌, ℕ, ◌≤◌, Some};
ghost use Rattle.figures.specs.Lengths.{longest_pair_lem};
ghost use Rattle.findings.specs.Rules.{Admission};
ghost use Rattle.fitting.specs.Demands.{bounds, demand, lengths};
ghost use Rattle.fitting.specs.Passes.{first, least_asked, raised, only_of, body};
ghost use Rattle.rows.specs.Records.{row_of};

use crate::reach::low;
use figures::lengths::longest_pair;
use limits::Limit;
use road::Road;
use rows::{Curve, Row, RowRecord};

// The bounds of a calling curve's two clothoids.
#[derive(Clone, Copy)]
pub(crate) struct Bounds {
    /// the least lengths that are admitted at the entry and at the exit, if there are any, mm
    pub entry: Option<u32>,
    pub exit: Option<u32>,
    /// whether entry and exit have to be equal
    pub even: bool,
    /// the greatest sum of the two that leaves an arc, mm
    pub room: u32,
}

// A row's demand: what it asks of its clothoids.
#[derive(Clone, Copy)]
pub(crate) enum Demand {
    // a straight, or a curve that calls for no clothoids: both lengths are 0
    Free,
    Called(Bounds),
}

// The lengths of a row's two clothoids, mm.
#[derive(Clone, Copy)]
pub(crate) struct Lengths {
    pub entry: u32,
    pub exit: u32,
}

// The greatest sum of entry and exit that leaves an arc.
fn room_of(curve: Curve) -> u32
    ensures { result ≡ longest_pair_lem curve }
{
    longest_pair(curve) as u32
}

impl Bounds {
    // The limit is asked here alone.
    fn of<L: Limit>(road: &Road, limit: &L, curve: Curve) -> Bounds
        ensures { result ≡ bounds road.now (L.Limit.admitted limit.now) curve }
    {
        let least = curve.least_length(road, limit);
        Bounds {
            entry: least,
            exit: least,
            even: road.symmetric,
            room: room_of(curve),
        }
    }
}

impl Demand {
    // What the row asks of its clothoids.
    pub(crate) fn of<L: Limit>(road: &Road, limit: &L, row: Row) -> Demand
        ensures { result ≡ demand road.now (L.Limit.admitted limit.now) row }
    {
        let Row::Curve(curve) = row else {
            return Demand::Free;
        };
        if curve.calls_for_clothoids(road) {
            Demand::Called(Bounds::of(road, limit, curve))
        } else {
            Demand::Free
        }
    }

    // The least length that the row asks of its clothoids by itself.
    pub(crate) fn least(self) -> u32
        ensures { result ≡ least_asked self }
    {
        match self {
            Demand::Free => 0,
            Demand::Called(bounds) => low(bounds.entry),
        }
    }
}

impl Lengths {
    pub(crate) const NONE: Lengths = Lengths { entry: 0, exit: 0 };

    // The least lengths that the rows up to this one ask, where its entry is at least that long.
    // What it asks by itself may be kept; the limit is asked again where it is not.
    pub(crate) fn first<L: Limit>(
        road: &Road,
        limit: &L,
        row: Row,
        kept: Option<u32>,
        least_entry: u32,
    ) -> Lengths
        requires { (least : ℕ) → kept ≡ Some least → least ≡ least_asked (demand road.now (L.Limit.admitted limit.now) row) }
        ensures { result ≡ first least_entry (demand road.now (L.Limit.admitted limit.now) row) }
    {
        let Row::Curve(curve) = row else {
            return Lengths::NONE;
        };
        if !curve.calls_for_clothoids(road) {
            return Lengths::NONE;
        }
        let least = match kept {
            Some(least) => least,
            None => Demand::of(road, limit, row).least(),
        };
        let entry = least.max(least_entry);
        Lengths {
            entry,
            exit: if road.symmetric { entry } else { least },
        }
    }

    // The lengths of the row where its exit is at least that long.
    pub(crate) fn raised(road: &Road, row: Row, least_exit: u32) -> Lengths
        ensures { (admission : Admission) → result ≡ raised least_exit (demand road.now admission row) (lengths row) }
    {
        let Row::Curve(curve) = row else {
            return Lengths::NONE;
        };
        if !curve.calls_for_clothoids(road) {
            return Lengths {
                entry: curve.entry,
                exit: curve.exit,
            };
        }
        let exit = curve.exit.max(least_exit);
        Lengths {
            entry: if road.symmetric { exit } else { curve.entry },
            exit,
        }
    }
}

// Gives the record other lengths, where it is that of a curve; that of a straight is left, and not even written.
pub(crate) fn set_lengths(stored: &mut RowRecord, new: Lengths)
    requires { (new.entry ≤ 2_000_000) × (new.exit ≤ 2_000_000) }
    ensures same { body stored.new ≡ body stored.old }
    ensures read { lengths (row_of stored.new) ≡ only_of (row_of stored.old) new }
{
    let Row::Curve(curve) = stored.read() else {
        return;
    };
    *stored = RowRecord::from(Row::Curve(Curve {
        sense: curve.sense,
        radius: curve.radius,
        turn: curve.turn,
        entry: new.entry,
        exit: new.exit,
    }));
}
