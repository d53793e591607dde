//! A watcher: who is shown each outcome of a series, and the sheet after it.
ghost use Rattle.series.specs.Histories.{Seen, seen};

use crate::any_sheet::Sheet;
use crate::outcome::Outcome;
use findings::Finding;
use rows::RowRecord;

/// Who is shown each outcome of [`Sheet::carry_out`](crate::any_sheet::Sheet::carry_out), and the sheet after it.
pub trait Watcher {
    // How seeing a call's answer, and the sheet after it, changes the watcher.
    ghost sees: { Self → Seen → Self → Type 0 };

    /// Shows the watcher an outcome and the sheet after it. The sheet's rows are in the row memory. What was found are the findings of this check, and none after any other call.
    fn see(&mut self, sheet: &Sheet, rows: &[RowRecord], found: &[Finding], outcome: Outcome)
        ensures { sees self.old (seen sheet.now rows.now found.now outcome) self.new };
}
