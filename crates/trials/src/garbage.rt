// Rows that somebody wrote over: a record with a number outside its range reads as a straight of 1 mm, and every call answers.
use crate::made::{GARBAGE, UNUSED, curve, new_curve, new_straight, road, straight};
use findings::Rule;
use norma::COMPULSORY;
use road::Refusal;
use rows::row::Sense::Left;
use rows::{End, RowRecord};
use sheet::{Draft, Fitted};
use std::process::Abort;
use std::test::Fail;

type Rows = [RowRecord; 3];

// The least clothoids at 700 m.
const END: RowRecord = RowRecord::Curve {
    sense: Left,
    radius: 700_000,
    turn: 300_000,
    entry: 91_652,
    exit: 91_652,
};

// Two curves of the same sense, and that record between them.
fn around(record: RowRecord) -> Result<(Draft, Rows), Refusal> {
    let mut rows = [GARBAGE; 3];
    let mut draft = Draft::open(road()?);
    draft.add(&mut rows, 0, new_curve(700_000))?;
    draft.add(&mut rows, 1, new_straight(278_000))?;
    draft.add(&mut rows, 2, new_curve(700_000))?;
    rows[1] = record;
    Ok((draft, rows))
}

// It is a run that is too short, and no curve.
fn no_curve(rt: &impl Abort, sheet: &Fitted, rows: &Rows) {
    let mut findings = [UNUSED; 2];
    assert_eq!(rt; sheet.check(rows, &COMPULSORY, &mut findings), Ok(1));
    assert_eq!(rt;
        (findings[0].rule, findings[1]),
        (Rule::ShortestRun, UNUSED)
    );
    let asked = sheet.parameter(rows, 1, End::Exit);
    assert_eq!(rt; asked, Err(Refusal::NotACurve { row: 1 }));
}

// It parts the curves, stays as it is, and moves as it is.
fn read_as_the_blank(rt: &impl Abort, record: RowRecord) -> Result<(), Fail> {
    let (mut draft, mut rows) = around(record)?;
    let set = draft.set_lengths(&mut rows, 1, 0, 0);
    assert_eq!(rt; set, Err(Refusal::NotACurve { row: 1 }));
    let fitted = draft
        .fit(&mut rows, &COMPULSORY)
        .map_err(|(_draft, refusal)| refusal)?;
    assert_eq!(rt; rows, [END, record, END]);
    no_curve(rt, &fitted, &rows);
    let mut draft = fitted.reopen();
    draft.take_out(&mut rows, 0)?;
    assert_eq!(rt; rows, [record, END, RowRecord::BLANK]);
    Ok(())
}

// Each number outside its range by itself, below and above it.
#[test]
fn numbers_outside(rt: HostRuntime) -> Result<(), Fail> {
    let turned = |turn| RowRecord::Curve {
        sense: Left,
        radius: 700_000,
        turn,
        entry: 5,
        exit: 5,
    };
    for record in [
        straight(0),
        straight(20_000_001),
        curve(999, 5, 5),
        curve(10_000_001, 5, 5),
        turned(0),
        turned(2_000_001),
        curve(700_000, 2_000_001, 5),
        curve(700_000, 5, 2_000_001),
        GARBAGE,
    ] {
        read_as_the_blank(&rt, record)?;
    }
    Ok(())
}

// The first and the last numbers of the ranges read as themselves.
#[test]
fn numbers_inside(rt: HostRuntime) -> Result<(), Fail> {
    for radius in [1_000, 10_000_000] {
        let (mut draft, mut rows) = around(curve(radius, 2_000_000, 2_000_000))?;
        assert_eq!(rt; draft.set_lengths(&mut rows, 1, 3, 4), Ok(()));
        assert_eq!(rt; rows[1], curve(radius, 3, 4));
    }
    Ok(())
}

// Adds 4,000 straights.
fn fill(draft: &mut Draft, rows: &mut [RowRecord]) -> Result<(), Refusal> {
    for position in 0..4_000 {
        draft.add(rows, position, new_straight(1))?;
    }
    Ok(())
}

// 4,000 rows and no more, in memory for more.
#[test]
fn most_rows(rt: HostRuntime) -> Result<(), Fail> {
    let mut rows = [GARBAGE; 4_002];
    let mut draft = Draft::open(road()?);
    fill(&mut draft, &mut rows)?;
    let before = rows;
    let full = draft.add(&mut rows, 0, new_straight(1));
    assert_eq!(rt; full, Err(Refusal::Full { row: 0 }));
    assert_eq!(rt; rows == before, true);
    Ok(())
}
