// An alignment, and the findings of its check.
ghost use Rattle.std.specs.Prelude.{◌≡◌, ◌≤◌, length, nat_le};

use crate::finding::Finding;
use crate::kind::{KINDS, Kind};
use crate::walk::{Context, Flank, Walk};
use limits::Limit;
use road::Road;
use roll::{Roll, RollRefusal};
use rows::RowRecord;

// A road, the limit of its clothoids, and the rows of a sheet.
#[derive(Drop)]
pub(crate) struct Alignment<'a, L> {
    pub(crate) road: &'a Road,
    pub(crate) limit: &'a L,
    pub(crate) rows: &'a [RowRecord],
    ghost few: { length rows.now ≤ 4_000 },
}

// The road is handed to each method: a context is of one row, and the road is of all.
impl Context {
    ghost use Rattle.roll.specs.Edits.{SameLoan};
    ghost use Rattle.findings.specs.Findings.{finding_of};
    ghost use Rattle.findings.specs.Reports.{Reported};
    ghost use Rattle.findings.specs.Walk.{breaks, kinds, clothoid_kinds, other_kinds, given, gathered, counted};

    // How many findings the row has.
    fn count(&self, road: &Road) -> usize
        ensures value { result ≡ counted road.now self.now kinds }
        ensures bound { result ≤ 16 }
    {
        KINDS
            .iter()
            .filter(|kind| self.breaks(road, **kind))
            .count()
    }

    // The finding of a kind, if the row breaks its rule.
    #[inline(always)]
    fn report_kind(
        &self,
        road: &Road,
        position: usize,
        kind: Kind,
        findings: &mut Roll<'_, Finding>,
    ) -> Result<(), RollRefusal>
        ensures same { SameLoan findings.old findings.new }
        ensures report { Reported findings.old findings.new (given (breaks road.now kind self.now) (finding_of position kind)) result }
    {
        if self.breaks(road, kind) {
            findings.push(kind.finding(position))
        } else {
            Ok(())
        }
    }

    // The findings by the rules of clothoids. A call for each kind, and no loop, so that each is compiled as the test of that kind alone.
    #[inline(always)]
    fn report_clothoids(
        &self,
        road: &Road,
        position: usize,
        findings: &mut Roll<'_, Finding>,
    ) -> Result<(), RollRefusal>
        ensures same { SameLoan findings.old findings.new }
        ensures report { Reported findings.old findings.new (gathered road.now position self.now clothoid_kinds) result }
    {
        self.report_kind(road, position, Kind::UnadmittedEntry, findings)?;
        self.report_kind(road, position, Kind::UnadmittedExit, findings)?;
        self.report_kind(road, position, Kind::LongEntry, findings)?;
        self.report_kind(road, position, Kind::LongExit, findings)?;
        self.report_kind(road, position, Kind::UncalledEntry, findings)?;
        self.report_kind(road, position, Kind::UncalledExit, findings)?;
        self.report_kind(road, position, Kind::Unequal, findings)?;
        self.report_kind(road, position, Kind::Disharmony, findings)?;
        self.report_kind(road, position, Kind::NoArc, findings)
    }

    // The findings by the other rules.
    #[inline(always)]
    fn report_others(
        &self,
        road: &Road,
        position: usize,
        findings: &mut Roll<'_, Finding>,
    ) -> Result<(), RollRefusal>
        ensures same { SameLoan findings.old findings.new }
        ensures report { Reported findings.old findings.new (gathered road.now position self.now other_kinds) result }
    {
        self.report_kind(road, position, Kind::TightRadius, findings)?;
        self.report_kind(road, position, Kind::NextRadius, findings)?;
        self.report_kind(road, position, Kind::ReturnRadius, findings)?;
        self.report_kind(road, position, Kind::SmallTurn, findings)?;
        self.report_kind(road, position, Kind::ShortRun, findings)?;
        self.report_kind(road, position, Kind::LongRun, findings)?;
        self.report_kind(road, position, Kind::SlightTurn, findings)
    }

    // The findings of the row.
    fn report(
        &self,
        road: &Road,
        position: usize,
        findings: &mut Roll<'_, Finding>,
    ) -> Result<(), RollRefusal>
        ensures same { SameLoan findings.old findings.new }
        ensures report { Reported findings.old findings.new (gathered road.now position self.now kinds) result }
    {
        self.report_clothoids(road, position, findings)?;
        self.report_others(road, position, findings)
    }
}

impl<'a, L: Limit> Alignment<'a, L> {
    ghost use Rattle.roll.specs.Edits.{SameLoan};
    ghost use Rattle.findings.specs.Reports.{Reported};
    ghost use Rattle.findings.specs.Alignments.{left, all_rows, all_findings};

    fn walk(&self) -> Walk<'a, L>
        ensures { left L.Limit.admitted result ≡ all_rows L.Limit.admitted self.now }
    {
        Walk {
            road: self.road,
            limit: self.limit,
            rows: self.rows,
            behind: Flank::NOTHING,
        }
    }

    // How many findings there are.
    fn count(&self) -> usize
        ensures { result ≡ length (all_findings L.Limit.admitted self.now) }
    {
        self.walk().map(|at| at.count(self.road)).sum()
    }

    // Whether the findings fit so many slots. A row has one finding of each kind at most: where so many fit, they are not counted.
    pub(crate) fn has_room(&self, slots: usize) -> bool
        ensures { result ≡ nat_le (length (all_findings L.Limit.admitted self.now)) slots }
    {
        KINDS.len() * self.rows.len() <= slots || self.count() <= slots
    }

    // Puts the findings into the roll, in the order of row, rule and side.
    pub(crate) fn report(&self, findings: &mut Roll<'_, Finding>) -> Result<(), RollRefusal>
        ensures same { SameLoan findings.old findings.new }
        ensures report { Reported findings.old findings.new (all_findings L.Limit.admitted self.now) result }
    {
        for (position, at) in self.walk().enumerate() {
            at.report(self.road, position, findings)?;
        }
        Ok(())
    }
}
