// A walk along the rows of a sheet, and what it knows at each of them.
ghost use Rattle.std.specs.Prelude.{◌+◌, ◌*◌, ◌≤◌, length};

use limits::Limit;
use road::Road;
use rows::{Curve, Row, RowRecord};

/// What lies on one side of a row: the nearest curve there, and the length of the run up to it, or up to the sheet's end, mm.
/// A run is neighbouring straights, and its length is their sum; 0 where there are none.
#[derive(Clone, Copy)]
pub struct Flank {
    /// the nearest curve, if there is one
    pub curve: Option<Curve>,
    /// mm
    pub run: u64,
}

impl Flank {
    /// What lies behind the first row.
    pub const NOTHING: Flank = Flank {
        curve: None,
        run: 0,
    };
}

/// What the clothoids of a row are held to.
#[derive(Clone, Copy)]
pub enum Clothoids {
    /// the row calls for none
    Uncalled,
    /// the least length that is admitted, if there is one, mm
    Called(Option<u32>),
}

/// A row with what lies behind it and ahead of it.
#[derive(Clone, Copy)]
pub struct Context {
    pub row: Row,
    pub clothoids: Clothoids,
    pub behind: Flank,
    pub ahead: Flank,
}

// A walk along the rows: those that are left, and what lies behind them.
#[derive(Drop)]
pub(crate) struct Walk<'a, L> {
    pub(crate) road: &'a Road,
    pub(crate) limit: &'a L,
    pub(crate) rows: &'a [RowRecord],
    pub(crate) behind: Flank,
    ghost short: { behind.run + 20_000_000 * length rows.now ≤ 80_000_000_000 },
}

impl<'a, L: Limit> Iterator for Walk<'a, L> {
    type Item = Context;

    ghost use Rattle.std.specs.Iterator.{YieldsFirst, item_count};
    ghost use Rattle.findings.specs.Alignments.{left};

    ghost next_gives = { YieldsFirst (left L.Limit.admitted) };

    ghost remaining = { item_count (left L.Limit.admitted) };

    #[inline(always)]
    fn next(&mut self) -> Option<Context> {
        let (record, after) = self.rows.split_first()?;
        let row = record.read();
        let behind = self.behind;
        self.rows = after;
        self.behind = behind.past(row);
        Some(Context::of(row, self.road, self.limit, behind, after))
    }
}
