//! A sheet that is a draft or fitted, whichever it is, and its calls made by value.
ghost use Rattle.std.specs.Prelude.{◌≡◌, List};
ghost use Rattle.rows.specs.declared.record.RowRecord.{RowRecord};
ghost use Rattle.findings.specs.declared.finding.Finding.{Finding};
ghost use Rattle.plain.specs.Sheet.{meaning};
ghost use Rattle.sheet.specs.States.{drafted, fitted_in, edited};
ghost use Rattle.series.specs.Calls.{road_of, count_of, stands, told, outcome_of_check, Kept, CallMade};
ghost use Rattle.series.specs.Histories.{opened_in, SeriesDone};
ghost use Rattle.series.specs.Laws.{Laws};

use crate::call::{Call, Request};
use crate::outcome::Outcome;
use crate::watcher::Watcher;
use findings::Finding;
use limits::Limit;
use road::{Refusal, Road};
use rows::RowRecord;
use sheet::{Draft, Fitted};

/// A sheet of either mark. It adds no number to the draft or the fitted sheet that it is, and their rows lie in memory that is lent to each call.
#[derive(Drop)]
pub enum Sheet {
    /// A sheet whose rows may be edited.
    Draft(Draft),
    /// A sheet as a fit left it.
    Fitted(Fitted),
}

impl Sheet {
    /// A sheet just opened: a draft of the road, with no rows.
    pub fn open(road: Road) -> Sheet
        ensures { (memory : List RowRecord) → stands result memory ≡ opened_in road memory }
    {
        Sheet::Draft(Draft::open(road))
    }

    /// The road that it was opened on.
    pub fn road(&self) -> Road
        ensures { result ≡ road_of self.now }
    {
        match self {
            Sheet::Draft(draft) => draft.road(),
            Sheet::Fitted(fitted) => fitted.road(),
        }
    }

    /// How many rows it has, at most 4,000.
    pub fn len(&self) -> usize
        ensures { result ≡ count_of self.now }
    {
        match self {
            Sheet::Draft(draft) => draft.len(),
            Sheet::Fitted(fitted) => fitted.len(),
        }
    }

    /// Makes the call, if the sheet has it, and hands the sheet back. A call that is refused or barred changes nothing.
    pub fn step<L: Limit>(
        self,
        rows: &mut [RowRecord],
        findings: &mut [Finding],
        call: &Call<L>,
    ) -> (Sheet, Outcome)
        ensures step { CallMade (meaning L.Limit.admitted L.Limit.lawful) call.now (stands self rows.old) findings.old result.1 findings.new (stands result.0 rows.new) }
        ensures rest { Kept result.1 findings.old findings.new }
    {
        match self {
            Sheet::Draft(draft) => on_draft(draft, rows, findings, call),
            Sheet::Fitted(fitted) => on_fitted(fitted, rows, findings, call),
        }
    }

    /// Makes the calls one after the other, each lent the row memory that it asks for, and shows the watcher each outcome and the sheet after it.
    /// What the watcher is shown is a history of the plain sheet, so the laws of these hold of it.
    pub fn carry_out<L: Limit, W: Watcher>(
        self,
        rows: &mut [RowRecord],
        findings: &mut [Finding],
        requests: &[Request<L>],
        watcher: &mut W,
    ) -> Sheet
        ensures series { SeriesDone W.Watcher.sees (meaning L.Limit.admitted L.Limit.lawful) requests.now watcher.old watcher.new findings.old findings.new (stands self rows.old) (stands result rows.new) }
        ensures laws { Laws }
    {
        let mut sheet = self;
        for request in requests {
            let room = request.room.min(rows.len());
            let (next, outcome) = sheet.step(&mut rows[..room], findings, &request.call);
            watcher.see(&next, rows, outcome.found_in(findings), outcome);
            sheet = next;
        }
        sheet
    }
}

fn on_draft<L: Limit>(
    mut draft: Draft,
    rows: &mut [RowRecord],
    findings: &mut [Finding],
    call: &Call<L>,
) -> (Sheet, Outcome)
    ensures step { CallMade (meaning L.Limit.admitted L.Limit.lawful) call.now (drafted draft rows.old) findings.old result.1 findings.new (stands result.0 rows.new) }
    ensures rest { Kept result.1 findings.old findings.new }
{
    match call {
        Call::Add { before, row } => {
            let position = before.unwrap_or(draft.len());
            let result = draft.add(rows, position, *row);
            (Sheet::Draft(draft), edit_outcome(result))
        }
        Call::TakeOut { row } => {
            let result = draft.take_out(rows, *row);
            (Sheet::Draft(draft), edit_outcome(result))
        }
        Call::SetLengths { row, entry, exit } => {
            let result = draft.set_lengths(rows, *row, *entry, *exit);
            (Sheet::Draft(draft), edit_outcome(result))
        }
        Call::Check { limit, space } => {
            let space = (*space).min(findings.len());
            let result = draft.check(rows, limit, &mut findings[..space]);
            (Sheet::Draft(draft), check_outcome(result))
        }
        Call::Fit { limit } => match draft.fit(rows, limit) {
            Ok(fitted) => (Sheet::Fitted(fitted), Outcome::Done),
            Err((draft, refusal)) => (Sheet::Draft(draft), Outcome::Refused(refusal)),
        },
        Call::Parameter { .. } | Call::Reopen => (Sheet::Draft(draft), Outcome::Barred),
    }
}

fn on_fitted<L: Limit>(
    fitted: Fitted,
    rows: &[RowRecord],
    findings: &mut [Finding],
    call: &Call<L>,
) -> (Sheet, Outcome)
    ensures step { CallMade (meaning L.Limit.admitted L.Limit.lawful) call.now (fitted_in fitted rows.now) findings.old result.1 findings.new (stands result.0 rows.now) }
    ensures rest { Kept result.1 findings.old findings.new }
{
    match call {
        Call::Check { limit, space } => {
            let space = (*space).min(findings.len());
            let result = fitted.check(rows, limit, &mut findings[..space]);
            (Sheet::Fitted(fitted), check_outcome(result))
        }
        Call::Parameter { row, at } => {
            let outcome = match fitted.parameter(rows, *row, *at) {
                Ok(parameter) => Outcome::Parameter(parameter),
                Err(refusal) => Outcome::Refused(refusal),
            };
            (Sheet::Fitted(fitted), outcome)
        }
        Call::Reopen => (Sheet::Draft(fitted.reopen()), Outcome::Done),
        _ => (Sheet::Fitted(fitted), Outcome::Barred),
    }
}

fn edit_outcome(answer: Result<(), Refusal>) -> Outcome
    ensures told { (findings : List Finding) → told result findings ≡ edited answer }
    ensures rest { (findings : List Finding) → Kept result findings findings }
{
    match answer {
        Ok(()) => Outcome::Done,
        Err(refusal) => Outcome::Refused(refusal),
    }
}

fn check_outcome(answer: Result<usize, Refusal>) -> Outcome
    ensures { result ≡ outcome_of_check answer }
{
    match answer {
        Ok(count) => Outcome::Found(count),
        Err(refusal) => Outcome::Refused(refusal),
    }
}
