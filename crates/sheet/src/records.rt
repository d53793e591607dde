// The records of a sheet's rows, at the front of the memory that is lent to a call, and that of a new row.
ghost use Rattle.std.specs.Prelude.{◌≡◌, ◌<◌, ◌≤◌, MatchResult, length, take};
ghost use Rattle.plain.specs.Sheet.{Mark, meaning, check as asking};
ghost use Rattle.sheet.specs.States.{state_of, listed, Untouched, OnlyLooks, Numbered, RecordAt};

use findings::{Finding, check};
use limits::Limit;
use plain::NewRow;
use road::{Refusal, Road};
use rows::{Row, RowRecord};

// The records of the first `count` rows. A memory shorter than the count is refused, naming that row.
pub(crate) fn records(rows: &[RowRecord], count: usize, row: usize) -> Result<&[RowRecord], Refusal>
    ensures { MatchResult result (λ records. (count ≤ length rows.now) × (records.now ≡ take count rows.now)) (λ refusal. (length rows.now < count) × (refusal ≡ Refusal.ShortMemory row)) }
{
    rows.get(..count).ok_or(Refusal::ShortMemory { row })
}

// The record of a row among the first `count`.
pub(crate) fn record_at(rows: &[RowRecord], count: usize, row: usize) -> Result<RowRecord, Refusal>
    ensures { RecordAt rows.now count row result }
{
    let records = records(rows, count, row)?;
    if row >= count {
        return Err(Refusal::NoSuchRow { row });
    }
    Ok(records[row])
}

// The record of a row to be added, or which of its numbers is outside its range.
pub(crate) fn new_record(position: usize, new: NewRow) -> Result<RowRecord, Refusal>
    ensures { Numbered position new result }
{
    let record = RowRecord::from(new);
    match Row::try_from(record) {
        Ok(_) => Ok(record),
        Err(outside) => Err(outside.refusal(position)),
    }
}

// Checks the first `count` rows, whatever the sheet's mark.
pub(crate) fn check_records<L: Limit>(
    road: &Road,
    count: usize,
    rows: &[RowRecord],
    limit: &L,
    findings: &mut [Finding],
) -> Result<usize, Refusal>
    requires few { count ≤ 4_000 }
    ensures step { (mark : Mark) → OnlyLooks (state_of mark road.now count rows.now) (asking (meaning L.Limit.admitted L.Limit.lawful limit.now) (length findings.old)) (listed result findings.new) }
    ensures rest { Untouched result findings.old findings.new }
{
    let records = records(rows, count, 0)?;
    check(road, limit, records, findings).map_err(|_| Refusal::Full { row: 0 })
}
