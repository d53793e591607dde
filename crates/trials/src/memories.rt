// Memory that is too short, or of another length at each call, and what it holds after each refusal.
use crate::made::{GARBAGE, UNUSED, curve, new_curve, new_straight, road, straight};
use norma::{COMPULSORY, CompulsoryPile};
use plain::NewRow;
use road::Refusal;
use rows::{End, RowRecord};
use series::{Call, Outcome, Sheet};
use std::process::Abort;
use std::test::Fail;

type Rows = [RowRecord; 5];

const LAST: usize = usize::MAX;

// A call, how many slots of the row memory it is lent, and its answer.
#[derive(Drop)]
struct Case {
    call: Call<CompulsoryPile>,
    room: usize,
    answer: Outcome,
}

fn answered(call: Call<CompulsoryPile>, room: usize, answer: Outcome) -> Case {
    Case { call, room, answer }
}

fn done(call: Call<CompulsoryPile>, room: usize) -> Case {
    answered(call, room, Outcome::Done)
}

fn refused(call: Call<CompulsoryPile>, room: usize, refusal: Refusal) -> Case {
    answered(call, room, Outcome::Refused(refusal))
}

fn barred(call: Call<CompulsoryPile>) -> Case {
    answered(call, LAST, Outcome::Barred)
}

// Makes a call: it answers so, and a call that is refused or barred leaves the rows as they were.
fn made(rt: &impl Abort, sheet: Sheet, rows: &mut Rows, case: &Case) -> Sheet {
    let before = *rows;
    let room = case.room.min(rows.len());
    let mut findings = [UNUSED; 3];
    let (sheet, answer) = sheet.step(&mut rows[..room], &mut findings, &case.call);
    assert_eq!(rt; answer, case.answer);
    if let Outcome::Refused(_) | Outcome::Barred = answer {
        assert_eq!(rt; (*rows, findings), (before, [UNUSED; 3]));
    }
    sheet
}

fn all_made(rt: &impl Abort, sheet: Sheet, rows: &mut Rows, cases: &[Case]) -> Sheet {
    let mut sheet = sheet;
    for case in cases {
        sheet = made(rt, sheet, rows, case);
    }
    sheet
}

fn add(position: usize, row: NewRow) -> Call<CompulsoryPile> {
    Call::Add {
        before: Some(position),
        row,
    }
}

fn set(row: usize, entry: u32) -> Call<CompulsoryPile> {
    Call::SetLengths {
        row,
        entry,
        exit: 0,
    }
}

fn check(space: usize) -> Call<CompulsoryPile> {
    Call::Check {
        limit: COMPULSORY,
        space,
    }
}

fn ask(row: usize) -> Call<CompulsoryPile> {
    Call::Parameter {
        row,
        at: End::Entry,
    }
}

const FIT: Call<CompulsoryPile> = Call::Fit { limit: COMPULSORY };

// A draft of a straight, a curve and a straight, which were added out of order, in memory of another length each time.
fn draft(rt: &impl Abort, rows: &mut Rows) -> Result<Sheet, Refusal> {
    let cases = [
        done(add(0, new_straight(300_000)), 1),
        done(add(0, new_straight(200_000)), LAST),
        done(add(1, new_curve(1_000_000)), 3),
    ];
    Ok(all_made(rt, Sheet::open(road()?), rows, &cases))
}

// The smallest number goes first: what is wrong of the row, short memory, no such position, and no room.
#[test]
fn editing(rt: HostRuntime) -> Result<(), Fail> {
    let mut rows = [GARBAGE; 5];
    let sheet = draft(&rt, &mut rows)?;
    let new = new_straight(20_000_000);
    let cases = [
        refused(
            add(9, new_straight(0)),
            2,
            Refusal::StraightLength { row: 9 },
        ),
        refused(add(9, new), 2, Refusal::ShortMemory { row: 9 }),
        refused(add(0, new), 0, Refusal::ShortMemory { row: 0 }),
        refused(add(LAST, new), 3, Refusal::NoSuchRow { row: LAST }),
        refused(add(3, new), 3, Refusal::Full { row: 3 }),
        refused(set(9, 2_000_001), 2, Refusal::HandLength { row: 9 }),
        refused(set(9, 0), 2, Refusal::ShortMemory { row: 9 }),
        refused(set(2, 0), 3, Refusal::NotACurve { row: 2 }),
        refused(Call::TakeOut { row: 3 }, 2, Refusal::ShortMemory { row: 3 }),
        refused(
            Call::TakeOut { row: LAST },
            3,
            Refusal::NoSuchRow { row: LAST },
        ),
    ];
    let sheet = all_made(&rt, sheet, &mut rows, &cases);
    assert_eq!(rt; sheet.len(), 3);
    let kept = [
        straight(200_000),
        curve(1_000_000, 0, 0),
        straight(300_000),
        GARBAGE,
        GARBAGE,
    ];
    assert_eq!(rt; rows, kept);
    Ok(())
}

// A check that has too little memory for its rows or its findings, and a fit.
#[test]
fn checking_and_fitting(rt: HostRuntime) -> Result<(), Fail> {
    let mut rows = [GARBAGE; 5];
    let sheet = draft(&rt, &mut rows)?;
    let cases = [
        refused(check(3), 2, Refusal::ShortMemory { row: 0 }),
        refused(check(1), LAST, Refusal::Full { row: 0 }),
        answered(check(2), 3, Outcome::Found(2)),
        refused(FIT, 2, Refusal::ShortMemory { row: 0 }),
        barred(ask(1)),
        done(FIT, 3),
    ];
    let _fitted = all_made(&rt, sheet, &mut rows, &cases);
    let fitted = [
        straight(200_000),
        curve(1_000_000, 111_112, 111_112),
        straight(300_000),
        GARBAGE,
        GARBAGE,
    ];
    assert_eq!(rt; rows, fitted);
    Ok(())
}

// What a fitted sheet answers, until it is opened again.
#[test]
fn fitted(rt: HostRuntime) -> Result<(), Fail> {
    let mut rows = [GARBAGE; 5];
    let sheet = draft(&rt, &mut rows)?;
    let cases = [
        done(FIT, LAST),
        refused(ask(0), 2, Refusal::ShortMemory { row: 0 }),
        refused(ask(LAST), 3, Refusal::NoSuchRow { row: LAST }),
        refused(ask(0), 3, Refusal::NotACurve { row: 0 }),
        answered(ask(1), 3, Outcome::Parameter(333_335)),
        refused(check(3), 2, Refusal::ShortMemory { row: 0 }),
        answered(check(0), 3, Outcome::Found(0)),
        barred(FIT),
        barred(Call::TakeOut { row: 0 }),
        done(Call::Reopen, 0),
        done(Call::TakeOut { row: 0 }, 3),
    ];
    let _draft = all_made(&rt, sheet, &mut rows, &cases);
    let left = [
        curve(1_000_000, 111_112, 111_112),
        straight(300_000),
        RowRecord::BLANK,
        GARBAGE,
        GARBAGE,
    ];
    assert_eq!(rt; rows, left);
    Ok(())
}

// A sheet without rows has no fit, however much memory it is lent.
#[test]
fn no_rows(rt: HostRuntime) -> Result<(), Fail> {
    let mut rows = [GARBAGE; 5];
    let cases = [
        refused(FIT, 0, Refusal::NoRows),
        refused(FIT, LAST, Refusal::NoRows),
        done(add(0, new_straight(5)), 1),
        done(FIT, 1),
    ];
    let _fitted = all_made(&rt, Sheet::open(road()?), &mut rows, &cases);
    assert_eq!(rt; rows, [straight(5), GARBAGE, GARBAGE, GARBAGE, GARBAGE]);
    Ok(())
}
