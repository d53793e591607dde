//! The shortest clothoids that keep the rules of a sheet.
#![tactic(auto)]

ghost use Rattle.fitting.specs.Fits.{Fits};

mod demand;
mod passes;
mod reach;

use crate::passes::{first_without, push_back, start};
use limits::Limit;
use road::Road;
use rows::{MOST_ROWS, RowRecord};

/// Gives the curves the least lengths, mm, that keep the clothoid rules, 1 to 6, under the limit. Where there are none, it writes nothing,
/// and answers the first row up to which no lengths keep them.
pub fn fit<L: Limit>(road: &Road, limit: &L, records: &mut [RowRecord]) -> Result<(), usize>
    ensures { Fits road.now (L.Limit.admitted limit.now) records.old records.new result }
{
    // Kept between the passes, so that the limit is asked once a row, and twice only past the most rows of a sheet.
    let mut leasts = [0; MOST_ROWS];
    if let Some(row) = first_without(road, limit, records, &mut leasts) {
        return Err(row);
    }
    start(road, limit, records, &leasts);
    push_back(road, records);
    Ok(())
}
