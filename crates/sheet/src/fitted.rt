//! A fitted sheet: as a fit left it.
ghost use Rattle.std.specs.Prelude.{◌≤◌};

use crate::draft::Draft;
use crate::records::{check_records, record_at};
use findings::Finding;
use limits::Limit;
use road::{Refusal, Road};
use roots::clothoid_parameter;
use rows::{End, Row, RowRecord};

/// A sheet as a fit left it, with the least lengths in the memory that was lent to that fit: its rows are not edited until it is reopened.
/// It is moved and never copied. A call that is refused changes nothing.
#[derive(Drop)]
pub struct Fitted {
    pub(crate) road: Road,
    // of the rows, which lie in memory that is lent to each call
    pub(crate) count: usize,
    ghost few: { count ≤ 4_000 },
}

impl Fitted {
    ghost use Rattle.std.specs.Prelude.{◌≡◌, List, length};
    ghost use Rattle.rows.specs.declared.record.RowRecord.{RowRecord};
    ghost use Rattle.plain.specs.Sheet.{done, meaning, check as checking, parameter as asking, reopen as reopening};
    ghost use Rattle.sheet.specs.States.{fitted_road, fitted_count, drafted, fitted_in, listed, measured, Untouched, OnlyLooks, Performs};

    /// The road that it was opened on.
    pub fn road(&self) -> Road
        ensures { result ≡ fitted_road self.now }
    {
        self.road
    }

    /// How many rows it has, at most 4,000.
    pub fn len(&self) -> usize
        ensures { result ≡ fitted_count self.now }
    {
        self.count
    }

    /// Writes the findings under the limit to the front of their memory, in order, and says how many they are; past them it leaves that memory as it was.
    /// Refused, in this order: a memory shorter than the rows, and more findings than their memory holds.
    pub fn check<L: Limit>(
        &self,
        rows: &[RowRecord],
        limit: &L,
        findings: &mut [Finding],
    ) -> Result<usize, Refusal>
        ensures step { OnlyLooks (fitted_in self.now rows.now) (checking (meaning L.Limit.admitted L.Limit.lawful limit.now) (length findings.old)) (listed result findings.new) }
        ensures rest { Untouched result findings.old findings.new }
    {
        check_records(&self.road, self.count, rows, limit, findings)
    }

    /// The parameter of the clothoid at an end of a curve, mm: the least A with A² ≥ r L, rounded up as the office's own rule is, 0 where there is no clothoid.
    /// Refused, in this order: a memory shorter than the rows, a row that is not there, and a straight.
    pub fn parameter(&self, rows: &[RowRecord], row: usize, at: End) -> Result<u32, Refusal>
        ensures { OnlyLooks (fitted_in self.now rows.now) (asking row at) (measured result) }
    {
        let Row::Curve(curve) = record_at(rows, self.count, row)?.read() else {
            return Err(Refusal::NotACurve { row });
        };
        Ok(clothoid_parameter(curve.radius, curve.length_at(at)))
    }

    /// A draft of the same road, rows and lengths.
    pub fn reopen(self) -> Draft
        ensures { (memory : List RowRecord) → Performs (fitted_in self memory) reopening done (drafted result memory) }
    {
        Draft {
            road: self.road,
            count: self.count,
        }
    }
}
