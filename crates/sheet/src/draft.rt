//! A draft: a sheet whose rows may be edited.
ghost use Rattle.std.specs.Prelude.{◌≤◌};

use crate::fitted::Fitted;
use crate::records::{check_records, new_record, record_at, records};
use findings::Finding;
use fitting::fit;
use limits::{LONGEST_CLOTHOID, Limit};
use plain::NewRow;
use road::{Refusal, Road};
use roll::Roll;
use rows::{MOST_ROWS, Row, RowRecord};

/// A sheet whose rows may be edited: a road, and how many rows it has. The rows lie in memory that is lent to each call, as records at its front, and a call
/// whose memory is shorter than they are is refused. A draft is moved and never copied. A call that is refused changes nothing.
#[derive(Drop)]
pub struct Draft {
    pub(crate) road: Road,
    // of the rows
    pub(crate) count: usize,
    ghost few: { count ≤ 4_000 },
}

impl Draft {
    ghost use Rattle.std.specs.Prelude.{◌≡◌, ◌<◌, ◌⊎◌, List, length};
    ghost use Rattle.rows.specs.declared.record.RowRecord.{RowRecord};
    ghost use Rattle.plain.specs.Sheet.{opened, meaning, add as adding, take_out as striking, set_lengths as setting, check as asking, fit as shortening};
    ghost use Rattle.sheet.specs.States.{draft_road, draft_count, drafted, shown, edited, listed, fitting_answer, after_fit, NoRoom, Untouched, OnlyLooks, Performs};

    /// A draft of the road, with no rows yet.
    pub fn open(road: Road) -> Draft
        ensures { (memory : List RowRecord) → shown (drafted result memory) ≡ opened road }
    {
        Draft { road, count: 0 }
    }

    /// The road that it was opened on.
    pub fn road(&self) -> Road
        ensures { result ≡ draft_road self.now }
    {
        self.road
    }

    /// How many rows it has, at most 4,000.
    pub fn len(&self) -> usize
        ensures { result ≡ draft_count self.now }
    {
        self.count
    }

    /// Adds a row at a position, at most the number of rows; those from there on move up. A curve is added with clothoids of length 0.
    /// Refused, in this order: a number of the row outside its range, a memory shorter than the rows, a position beyond them, and a row more than
    /// 4,000 or than the memory holds.
    pub fn add(
        &mut self,
        rows: &mut [RowRecord],
        position: usize,
        new: NewRow,
    ) -> Result<(), Refusal>
        ensures { Performs (drafted self.old rows.old) (adding position new) (edited result) (drafted self.new rows.new) }
    {
        let record = new_record(position, new)?;
        // One test where there is room; `no_room` says why there is none.
        if position > self.count || self.count >= MOST_ROWS || self.count >= rows.len() {
            return Err(self.no_room(rows.len(), position));
        }
        let mut roll = Roll::over(rows, self.count);
        // The roll has a spare slot, so it refuses none.
        roll.insert(position, record)
            .map_err(|_| Refusal::Full { row: position })?;
        self.count += 1;
        Ok(())
    }

    // Why no row can be added at a position, in a memory of so many records.
    #[cold]
    #[inline(never)]
    fn no_room(&self, records: usize, position: usize) -> Refusal
        requires { (self.now.count < position) ⊎ ((4_000 ≤ self.now.count) ⊎ (records ≤ self.now.count)) }
        ensures { NoRoom records self.now.count position result }
    {
        if records < self.count {
            Refusal::ShortMemory { row: position }
        } else if position > self.count {
            Refusal::NoSuchRow { row: position }
        } else {
            Refusal::Full { row: position }
        }
    }

    /// Takes out a row; the rows after it move down, and the freed slot gets the blank row's record.
    /// Refused, in this order: a memory shorter than the rows, and a row that is not there.
    pub fn take_out(&mut self, rows: &mut [RowRecord], row: usize) -> Result<(), Refusal>
        ensures { Performs (drafted self.old rows.old) (striking row) (edited result) (drafted self.new rows.new) }
    {
        records(rows, self.count, row)?;
        let mut roll = Roll::over(rows, self.count);
        roll.remove(row, RowRecord::BLANK)
            .map_err(|_| Refusal::NoSuchRow { row })?;
        self.count -= 1;
        Ok(())
    }

    /// Sets both clothoid lengths of a curve by hand, in mm, from 0 to 2,000,000.
    /// Refused, in this order: a length above that, a memory shorter than the rows, a row that is not there, and a straight.
    pub fn set_lengths(
        &mut self,
        rows: &mut [RowRecord],
        row: usize,
        entry: u32,
        exit: u32,
    ) -> Result<(), Refusal>
        ensures { Performs (drafted self.old rows.old) (setting row entry exit) (edited result) (drafted self.new rows.new) }
    {
        if entry > LONGEST_CLOTHOID || exit > LONGEST_CLOTHOID {
            return Err(Refusal::HandLength { row });
        }
        let Row::Curve(curve) = record_at(rows, self.count, row)?.read() else {
            return Err(Refusal::NotACurve { row });
        };
        // Not `Row::Curve(Curve { entry, exit, ..curve })`: a struct with a ghost field takes no `..`.
        rows[row] = RowRecord::Curve {
            sense: curve.sense,
            radius: curve.radius,
            turn: curve.turn,
            entry,
            exit,
        };
        Ok(())
    }

    /// Writes the findings under the limit to the front of their memory, in order, and says how many they are; past them it leaves that memory as it was.
    /// Refused, in this order: a memory shorter than the rows, and more findings than their memory holds.
    pub fn check<L: Limit>(
        &self,
        rows: &[RowRecord],
        limit: &L,
        findings: &mut [Finding],
    ) -> Result<usize, Refusal>
        ensures step { OnlyLooks (drafted self.now rows.now) (asking (meaning L.Limit.admitted L.Limit.lawful limit.now) (length findings.old)) (listed result findings.new) }
        ensures rest { Untouched result findings.old findings.new }
    {
        check_records(&self.road, self.count, rows, limit, findings)
    }

    /// Ends the draft: gives the curves the least lengths that keep the clothoid rules, 1 to 6, under the limit.
    /// Refused, in this order: a memory shorter than the rows, a draft without rows, and rows that no lengths bring to keep the rules, naming the first up to
    /// which there are none. A refusal hands the draft back.
    pub fn fit<L: Limit>(
        self,
        rows: &mut [RowRecord],
        limit: &L,
    ) -> Result<Fitted, (Draft, Refusal)>
        ensures { Performs (drafted self rows.old) (shortening (meaning L.Limit.admitted L.Limit.lawful limit.now)) (fitting_answer result) (after_fit result rows.new) }
    {
        if rows.len() < self.count {
            return Err((self, Refusal::ShortMemory { row: 0 }));
        }
        if self.count == 0 {
            return Err((self, Refusal::NoRows));
        }
        match fit(&self.road, limit, &mut rows[..self.count]) {
            Ok(()) => Ok(Fitted {
                road: self.road,
                count: self.count,
            }),
            Err(row) => Err((self, Refusal::NoFit { row })),
        }
    }
}
