// Finding out what decides a finding.
ghost use Rattle.std.specs.Prelude.{◌≡◌, map, IsSome};
ghost use Rattle.findings.specs.Findings.{Found};
ghost use Rattle.findings.specs.Rules.{Admission};
ghost use Rattle.rows.specs.Records.{row_of};
ghost use Rattle.findings.specs.declared.finding.Rule.TheVariants as rule;
ghost use Rattle.wording.specs.Explained.{Explains};
ghost use Rattle.wording.specs.Reasons.{end_at_lem, unadmitted_of, clothoid_at, disharmony_of, disagreement_of, curve_reason_by, short_run_of, run_reason_by, reason_of};
ghost use Rattle.wording.specs.Beside.{right_before_lem};

use crate::explained::Explained;
use crate::neighbours::{curve_right_before, first_curve, last_curve, run_from};
use crate::reason::{Clothoid, Disagreement, Reason};
use figures::radii::{least_radius, next_radius};
use figures::runs::{longest_run, shortest_run};
use findings::{Rule, Side};
use rows::{Curve, End, Row, RowRecord, Straight};

// The end of a curve that a side is, if it is one.
fn end_at(side: Side) -> Option<End>
    ensures { result ≡ end_at_lem side }
{
    match side {
        Side::Whole => None,
        Side::Entry => Some(End::Entry),
        Side::Exit => Some(End::Exit),
    }
}

// In all of these, `before` are the rows before the finding's row, and `after` those after it.
impl Explained<'_> {
    // Rules 1 to 3: the clothoid at the finding's side.
    fn clothoid(&self, curve: Curve) -> Option<Clothoid>
        ensures { result ≡ clothoid_at (end_at_lem self.now.finding.side) curve }
    {
        let end = end_at(self.finding.side)?;
        Some(Clothoid {
            end,
            length: curve.length_at(end),
        })
    }

    // Rule 8: at the entry by the curve before, at the exit by the curve after.
    fn disagreement(
        &self,
        before: &[RowRecord],
        curve: Curve,
        after: &[RowRecord],
    ) -> Option<Reason>
        ensures { result ≡ disagreement_of self.now.road.now (end_at_lem self.now.finding.side) (map row_of before.now) curve (map row_of after.now) }
    {
        let end = end_at(self.finding.side)?;
        let neighbour = match end {
            End::Entry => last_curve(before)?,
            End::Exit => first_curve(before.len() + 1, after)?,
        };
        Some(Reason::Disagreeing(Disagreement {
            end,
            radius: curve.radius,
            neighbour,
            range: next_radius(self.road, neighbour.run, neighbour.curve.radius),
        }))
    }

    fn curve_reason(
        &self,
        before: &[RowRecord],
        curve: Curve,
        after: &[RowRecord],
    ) -> Option<Reason>
        ensures { result ≡ curve_reason_by self.now.finding.rule self.now (map row_of before.now) curve (map row_of after.now) }
    {
        let least = self.least;
        Some(match self.finding.rule {
            Rule::AdmittedLength => Reason::Unadmitted {
                clothoid: self.clothoid(curve)?,
                least,
            },
            Rule::LongestLength => Reason::TooLong {
                clothoid: self.clothoid(curve)?,
                least,
            },
            Rule::NoClothoids => Reason::Uncalled(self.clothoid(curve)?),
            Rule::Symmetry => Reason::Unequal(curve),
            Rule::Harmony => Reason::Disharmony {
                before: curve_right_before(before)?,
                entry: curve.entry,
            },
            Rule::ArcLeft => Reason::NoArc(curve),
            Rule::LeastRadius => Reason::TightRadius {
                radius: curve.radius,
                least: self.road.least_radius,
            },
            Rule::ConsecutiveRadii => self.disagreement(before, curve, after)?,
            Rule::SmallTurn => Reason::SmallTurn {
                curve,
                least: least_radius(&curve),
            },
            Rule::LeastTurn => Reason::SlightTurn { turn: curve.turn },
            Rule::ShortestRun | Rule::LongestRun => return None,
        })
    }

    // Rule 10: the run stands between two curves.
    fn short_run(
        &self,
        before: &[RowRecord],
        straight: Straight,
        after: &[RowRecord],
    ) -> Option<Reason>
        ensures { result ≡ run_reason_by rule.ShortestRun self.now (map row_of before.now) straight (map row_of after.now) }
    {
        let one = curve_right_before(before)?.curve.sense;
        let other = first_curve(before.len() + 1, after)?.curve.sense;
        Some(Reason::ShortRun {
            run: run_from(straight, after),
            same_sense: one == other,
            shortest: shortest_run(self.road, one, other),
        })
    }

    fn run_reason(
        &self,
        before: &[RowRecord],
        straight: Straight,
        after: &[RowRecord],
    ) -> Option<Reason>
        ensures { result ≡ run_reason_by self.now.finding.rule self.now (map row_of before.now) straight (map row_of after.now) }
    {
        match self.finding.rule {
            Rule::ShortestRun => self.short_run(before, straight, after),
            Rule::LongestRun => Some(Reason::LongRun {
                run: run_from(straight, after),
                longest: longest_run(self.road),
            }),
            _ => None,
        }
    }

    /// What decides the finding, by its rule and its side and by the rows before and after its own.
    ///
    /// There is nothing where the row is beyond the rows, or is not of the kind that the rule speaks of, or lacks the neighbour that it speaks of. A finding of a check always has a reason.
    pub fn reason(&self) -> Option<Reason>
        ensures value { result ≡ reason_of self.now }
        ensures explains { Explains self.now result }
        ensures found { (admission : Admission) → Found self.now.road.now admission (map row_of self.now.rows.now) self.now.finding → IsSome result }
    {
        let (before, from) = self.rows.split_at_checked(self.finding.row)?;
        let (record, after) = from.split_first()?;
        match record.read() {
            Row::Straight(straight) => self.run_reason(before, straight, after),
            Row::Curve(curve) => self.curve_reason(before, curve, after),
        }
    }
}
