// What lies behind a row and ahead of it, and what its clothoids are held to.
ghost use Rattle.std.specs.Prelude.{◌≡◌, ◌+◌, ◌≤◌, map, length, if◌then◌else◌};
ghost use Rattle.rows.specs.Records.{row_of};
ghost use Rattle.findings.specs.Walk.{nothing, past, reached, begins, clothoids_of, context_of};
ghost use Rattle.rows.specs.declared.row.Row.TheVariants as row;

use crate::walk::{Clothoids, Context, Flank};
use limits::Limit;
use road::Road;
use rows::{Curve, Row, RowRecord};

impl Flank {
    // What lies behind, one row on.
    pub(crate) fn past(self, row: Row) -> Flank
        requires { self.run ≤ 80_000_000_000 }
        ensures value { result ≡ past self row }
        ensures bound { result.run ≤ self.run + 20_000_000 }
    {
        match row {
            Row::Straight(straight) => Flank {
                curve: self.curve,
                run: self.run + straight.length as u64,
            },
            Row::Curve(curve) => Flank {
                curve: Some(curve),
                run: 0,
            },
        }
    }

    // What lies ahead, where these rows come.
    #[inline(never)]
    fn ahead(rows: &[RowRecord]) -> Flank
        requires { length rows.now ≤ 4_000 }
        ensures { result ≡ reached 0 (map row_of rows.now) }
    {
        let mut run = 0;
        for record in rows {
            match record.read() {
                Row::Straight(straight) => run += straight.length as u64,
                Row::Curve(curve) => {
                    return Flank {
                        curve: Some(curve),
                        run,
                    };
                }
            }
        }
        Flank { curve: None, run }
    }

    // What lies ahead of a straight. Only the first straight of a run looks ahead, and the curve before it, so a run is read twice at most.
    fn ahead_of_straight(behind: Flank, rows: &[RowRecord]) -> Flank
        requires { length rows.now ≤ 4_000 }
        ensures { result ≡ (if begins behind then reached 0 (map row_of rows.now) else nothing) }
    {
        if behind.begins_run() {
            Flank::ahead(rows)
        } else {
            Flank::NOTHING
        }
    }
}

impl Clothoids {
    // What the clothoids of a curve are held to. The limit is asked only where it calls for clothoids.
    fn of<L: Limit>(curve: Curve, road: &Road, limit: &L) -> Clothoids
        ensures { result ≡ clothoids_of road.now (L.Limit.admitted limit.now) (row.Curve curve) }
    {
        if curve.calls_for_clothoids(road) {
            Clothoids::Called(curve.least_length(road, limit))
        } else {
            Clothoids::Uncalled
        }
    }
}

impl Context {
    // The context of a row. Straights and curves part here, and nothing of both is done after, so that a straight within a run goes by in few instructions.
    #[inline(always)]
    pub(crate) fn of<L: Limit>(
        row: Row,
        road: &Road,
        limit: &L,
        behind: Flank,
        after: &[RowRecord],
    ) -> Context
        requires { length after.now ≤ 4_000 }
        ensures { result ≡ context_of road.now (L.Limit.admitted limit.now) behind row (map row_of after.now) }
    {
        match row {
            Row::Straight(_) => Context {
                row,
                clothoids: Clothoids::Uncalled,
                behind,
                ahead: Flank::ahead_of_straight(behind, after),
            },
            Row::Curve(curve) => Context {
                row,
                clothoids: Clothoids::of(curve, road, limit),
                behind,
                ahead: Flank::ahead(after),
            },
        }
    }
}
