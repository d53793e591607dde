//! The curves beside a row, and the runs between.
ghost use Rattle.std.specs.Prelude.{◌≡◌, ◌+◌, ◌<◌, ◌^◌, map, length};
ghost use Rattle.rows.specs.Records.{row_of};
ghost use Rattle.wording.specs.Beside.{next_curve, last_curve_lem, right_before_lem, run_on};

use rows::{Curve, Row, RowRecord, Straight};

/// A curve beside a row.
#[derive(Clone, Copy, Debug, PartialEq, Eq)]
pub struct Neighbour {
    /// The row that it stands in, from 0.
    pub row: usize,
    /// The curve.
    pub curve: Curve,
    /// The length of the run between the two, mm: 0 where there is none, the greatest number of 64 bits where it is longer.
    pub run: u64,
}

// The first curve of the rows, which are counted from that number.
pub(crate) fn first_curve(from: usize, rows: &[RowRecord]) -> Option<Neighbour>
    requires { from + length rows.now < 2 ^ 64 }
    ensures { result ≡ next_curve 0 from (map row_of rows.now) }
{
    let mut run = 0u64;
    for (offset, record) in rows.iter().enumerate() {
        match record.read() {
            Row::Straight(straight) => run = run.saturating_add(straight.length as u64),
            Row::Curve(curve) => {
                return Some(Neighbour {
                    row: from + offset,
                    curve,
                    run,
                });
            }
        }
    }
    None
}

// The last curve of the rows.
pub(crate) fn last_curve(rows: &[RowRecord]) -> Option<Neighbour>
    ensures { result ≡ last_curve_lem (map row_of rows.now) }
{
    let mut run = 0u64;
    let mut rest = rows;
    while let Some((record, before)) = rest.split_last() {
        match record.read() {
            Row::Straight(straight) => run = run.saturating_add(straight.length as u64),
            Row::Curve(curve) => {
                return Some(Neighbour {
                    row: before.len(),
                    curve,
                    run,
                });
            }
        }
        rest = before;
    }
    None
}

// The last of the rows, if it is a curve. A straight has a length, so a run of 0 is none.
pub(crate) fn curve_right_before(rows: &[RowRecord]) -> Option<Neighbour>
    ensures { result ≡ right_before_lem (map row_of rows.now) }
{
    match last_curve(rows) {
        Some(neighbour) if neighbour.run == 0 => Some(neighbour),
        _ => None,
    }
}

// The length of the run that the straight begins and the rows after it go on with.
pub(crate) fn run_from(straight: Straight, after: &[RowRecord]) -> u64
    ensures { result ≡ run_on straight.length (map row_of after.now) }
{
    let mut run = straight.length as u64;
    for record in after {
        match record.read() {
            Row::Straight(straight) => run = run.saturating_add(straight.length as u64),
            Row::Curve(_) => return run,
        }
    }
    run
}
