// A watcher that keeps the outcomes.
ghost use Rattle.std.specs.Prelude.{◌≡◌, ◌<◌, ◌+◌, length, slice_set};
ghost use Rattle.series.specs.declared.outcome.Outcome.{Outcome};
ghost use Rattle.trials.specs.Told.{ToldAs};

use findings::Finding;
use rows::RowRecord;
use series::{Outcome, Sheet, Watcher};

// As many calls as the test makes.
pub(crate) const CALLS: usize = 10;

#[derive(Drop)]
pub(crate) struct Recorder {
    pub outcomes: [Outcome; CALLS],
    pub count: usize,
}

impl Watcher for Recorder {
    // Where there is a slot, it gets the outcome.
    ghost sees = { λ w seen w'. w.count < 10 → (outcome : Outcome) × ToldAs outcome seen.answer × (w'.outcomes ≡ slice_set w.outcomes w.count outcome) × (w'.count ≡ w.count + 1) };

    fn see(&mut self, _sheet: &Sheet, _rows: &[RowRecord], _found: &[Finding], outcome: Outcome) {
        if self.count < CALLS {
            self.outcomes[self.count] = outcome;
            self.count += 1;
        }
    }
}
