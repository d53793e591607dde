// The passes of fitting over the records of a sheet: one forward that decides, one forward that writes, and one back that raises.
ghost use Rattle.std.specs.Prelude.{◌≡◌, None, map, set};
ghost use Rattle.findings.specs.Rules.{Admission};
ghost use Rattle.fitting.specs.declared.reach.Reach.TheVariants as reach;
ghost use Rattle.fitting.specs.Passes.{decide, started, pushed, body, demands, all_lengths, step, least_asked, Kept};

use crate::demand::{Demand, Lengths, set_lengths};
use crate::reach::{Reach, low};
use figures::lengths::least_beside;
use limits::Limit;
use road::Road;
use rows::RowRecord;

// Keeps the least length that a row asks, where there is a slot for it.
fn keep(leasts: &mut [u32], row: usize, least: u32)
    ensures { leasts.new ≡ set leasts.old row least }
{
    if row < leasts.len() {
        leasts[row] = least;
    }
}

// The exits of the row that comes next, if it can keep the rules; what it asks by itself is kept, where there is a slot for it.
// A row that asks nothing is told first: so it goes by in few instructions.
#[inline(always)]
fn step_kept(reach: Reach, demand: Demand, leasts: &mut [u32], row: usize) -> Option<Reach>
    ensures stepped { result ≡ step reach demand }
    ensures kept { leasts.new ≡ set leasts.old row (least_asked demand) }
{
    match demand {
        Demand::Free => {
            keep(leasts, row, 0);
            Some(Reach::Free)
        }
        Demand::Called(bounds) => {
            keep(leasts, row, low(bounds.entry));
            reach.exits(bounds)
        }
    }
}

// The first row up to which no lengths keep the rules, if there is one; else the least length that each row asks is kept in `leasts`, as far as there are slots.
pub(crate) fn first_without<L: Limit>(
    road: &Road,
    limit: &L,
    records: &[RowRecord],
    leasts: &mut [u32],
) -> Option<usize>
    ensures decided { result ≡ decide 0 reach.Free (demands road.now (L.Limit.admitted limit.now) records.now) }
    ensures kept { result ≡ None → Kept (demands road.now (L.Limit.admitted limit.now) records.now) leasts.new }
{
    let mut reach = Reach::Free;
    for (row, stored) in records.iter().enumerate() {
        let demand = Demand::of(road, limit, stored.read());
        match step_kept(reach, demand, leasts, row) {
            Some(next) => reach = next,
            None => return Some(row),
        }
    }
    None
}

// Forward: writes the least lengths that the rows up to each ask of it, by the least that each asks of itself.
pub(crate) fn start<L: Limit>(road: &Road, limit: &L, records: &mut [RowRecord], leasts: &[u32])
    requires { Kept (demands road.now (L.Limit.admitted limit.now) records.old) leasts.now }
    ensures same { map body records.new ≡ map body records.old }
    ensures lengths { all_lengths records.new ≡ started 0 (demands road.now (L.Limit.admitted limit.now) records.old) }
{
    let mut least_entry = 0;
    for row in 0..records.len() {
        let kept = leasts.get(row).copied();
        let lengths = Lengths::first(road, limit, records[row].read(), kept, least_entry);
        set_lengths(&mut records[row], lengths);
        least_entry = least_beside(lengths.exit);
    }
}

// Backward: raises each exit to what the entry after it asks of it.
pub(crate) fn push_back(road: &Road, records: &mut [RowRecord])
    ensures same { map body records.new ≡ map body records.old }
    ensures lengths { (admission : Admission) → all_lengths records.new ≡ pushed (demands road.now admission records.old) (all_lengths records.old) }
{
    let mut least_exit = 0;
    for row in (0..records.len()).rev() {
        let lengths = Lengths::raised(road, records[row].read(), least_exit);
        set_lengths(&mut records[row], lengths);
        least_exit = least_beside(lengths.entry);
    }
}
