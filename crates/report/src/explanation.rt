//! A finding with what it speaks of.
ghost use Rattle.report.specs.Explanations.{LeastOfRow, LeastAt, ExplainedAs};

use choice::LimitsInForce;
use findings::{Finding, Rule};
use road::Road;
use rows::{Row, RowRecord};
use wording::Explained;

// The least length that is admitted for the clothoids of a row, if it is a curve and there is one.
fn least_of_row(row: Row, road: &Road, limits: &LimitsInForce) -> Option<u32>
    ensures { LeastOfRow road.now limits.now row result }
{
    match row {
        Row::Straight(_) => None,
        Row::Curve(curve) => curve.least_length(road, limits),
    }
}

// The same of the row of that number, if there is one.
fn least_at(row: usize, road: &Road, rows: &[RowRecord], limits: &LimitsInForce) -> Option<u32>
    ensures { LeastAt road.now limits.now rows.now row result }
{
    if row >= rows.len() {
        return None;
    }
    least_of_row(rows[row].read(), road, limits)
}

/// The finding with its sheet, and with the least length in mm that the limits in force admit, where its rule is 1 (4.4.3) or 2 (4.4.4).
///
/// A finding of any number is taken: of a row that is not there nothing is said.
pub fn explained<'a>(
    finding: Finding,
    road: &'a Road,
    rows: &'a [RowRecord],
    limits: &LimitsInForce,
) -> Explained<'a>
    ensures { ExplainedAs road.now limits.now rows.now finding result }
{
    let least = match finding.rule {
        Rule::AdmittedLength | Rule::LongestLength => least_at(finding.row, road, rows, limits),
        _ => None,
    };
    Explained {
        finding,
        road,
        rows,
        least,
    }
}
