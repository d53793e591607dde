// Rounds of the timed calls: all rows added, the draft checked, fitted, and the fitted sheet checked.
use crate::input::Alignment;
use findings::{Finding, MOST_FINDINGS};
use norma::COMPULSORY;
use plain::NewRow;
use road::Refusal;
use rows::{MOST_ROWS, RowRecord};
use sheet::Draft;
use std::alloc::{AllocError, Global};
use std::time::{Duration, Instant};

// The findings memory of a check, and how many findings it wrote.
#[derive(Drop)]
pub(crate) struct Found {
    pub(crate) findings: Vec<Finding>,
    pub(crate) count: usize,
}

impl Found {
    fn new(heap: Global) -> Result<Found, AllocError> {
        Ok(Found {
            findings: vec![in heap; Finding::UNUSED; MOST_ROWS * MOST_FINDINGS]?,
            count: 0,
        })
    }
}

// The memory that the calls are lent, the same in every round, with what the last one left.
#[derive(Drop)]
pub(crate) struct Memory {
    pub(crate) rows: Vec<RowRecord>,
    // how many rows there are
    pub(crate) count: usize,
    pub(crate) draft: Found,
    pub(crate) fitted: Found,
}

impl Memory {
    pub(crate) fn new(heap: Global) -> Result<Memory, AllocError> {
        Ok(Memory {
            rows: vec![in heap; RowRecord::BLANK; MOST_ROWS]?,
            count: 0,
            draft: Found::new(heap)?,
            fitted: Found::new(heap)?,
        })
    }
}

// How long the calls took.
#[derive(Clone, Copy)]
pub(crate) struct Times {
    pub(crate) add: Duration,
    pub(crate) draft_check: Duration,
    pub(crate) fit: Duration,
    pub(crate) fitted_check: Duration,
}

impl Times {
    fn least(self, other: Times) -> Times {
        Times {
            add: self.add.min(other.add),
            draft_check: self.draft_check.min(other.draft_check),
            fit: self.fit.min(other.fit),
            fitted_check: self.fitted_check.min(other.fitted_check),
        }
    }
}

fn add_all(draft: &mut Draft, memory: &mut [RowRecord], rows: &[NewRow]) -> Result<(), Refusal> {
    for row in rows {
        let position = draft.len();
        draft.add(memory, position, *row)?;
    }
    Ok(())
}

fn time_round(
    rt: &HostRuntime,
    alignment: &Alignment,
    memory: &mut Memory,
) -> anyhow::Result<Times> {
    let rows = memory.rows.as_mut_slice();
    let mut draft = Draft::open(alignment.road);
    let start = Instant::now(rt)?;
    add_all(&mut draft, rows, alignment.rows.as_slice())?;
    let add = start.elapsed(rt)?;

    let start = Instant::now(rt)?;
    memory.draft.count = draft.check(rows, &COMPULSORY, memory.draft.findings.as_mut_slice())?;
    let draft_check = start.elapsed(rt)?;

    let start = Instant::now(rt)?;
    let fitted = draft
        .fit(rows, &COMPULSORY)
        .map_err(|(_, refusal)| refusal)?;
    let fit = start.elapsed(rt)?;

    let start = Instant::now(rt)?;
    memory.fitted.count = fitted.check(rows, &COMPULSORY, memory.fitted.findings.as_mut_slice())?;
    let fitted_check = start.elapsed(rt)?;

    memory.count = fitted.len();
    Ok(Times {
        add,
        draft_check,
        fit,
        fitted_check,
    })
}

// The least times of the rounds, of which there is one at least.
pub(crate) fn time_rounds(
    rt: &HostRuntime,
    alignment: &Alignment,
    memory: &mut Memory,
    rounds: u32,
) -> anyhow::Result<Times> {
    let mut least = time_round(rt, alignment, memory)?;
    for _ in 1..rounds {
        least = least.least(time_round(rt, alignment, memory)?);
    }
    Ok(least)
}
