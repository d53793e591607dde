// A series of calls under limits of two kinds, one of them one's own, and a watcher that is shown each outcome.
use crate::made::{UNUSED, new_curve, road};
use crate::own::OwnLimit;
use crate::recorder::{CALLS, Recorder};
use limits::Either;
use norma::{COMPULSORY, CompulsoryPile};
use road::Refusal;
use rows::{End, RowRecord};
use series::{Call, Outcome, Request, Sheet};
use std::test::Fail;

// Every limit of a series has one type.
type Chosen = Either<CompulsoryPile, OwnLimit>;

const NORMA: Chosen = Either::One(COMPULSORY);

const OWN: Chosen = Either::Other(OwnLimit);

// A call that is lent all the row memory.
fn whole(call: Call<Chosen>) -> Request<Chosen> {
    Request {
        call,
        room: usize::MAX,
    }
}

// The outcomes of ten calls.
fn outcomes(requests: &[Request<Chosen>]) -> Result<[Outcome; CALLS], Refusal> {
    let mut rows = [RowRecord::BLANK; 2];
    let mut findings = [UNUSED; 2];
    let mut recorder = Recorder {
        outcomes: [Outcome::Barred; CALLS],
        count: 0,
    };
    let sheet = Sheet::open(road()?);
    let _sheet = sheet.carry_out(&mut rows, &mut findings, requests, &mut recorder);
    Ok(recorder.outcomes)
}

// The roots of 1,000,000 times 30,000 and 111,112 are 173,205.08 and 333,334.67.
#[test]
fn norma_and_own(rt: HostRuntime) -> Result<(), Fail> {
    let ask = || whole(Call::Parameter {
        row: 0,
        at: End::Exit,
    });
    let shown = outcomes(&[
        whole(Call::Fit { limit: NORMA }),
        whole(Call::Add {
            before: None,
            row: new_curve(1_000_000),
        }),
        ask(),
        Request {
            call: Call::Fit { limit: OWN },
            room: 0,
        },
        whole(Call::Fit { limit: OWN }),
        ask(),
        whole(Call::Check {
            limit: NORMA,
            space: 2,
        }),
        whole(Call::Reopen),
        whole(Call::Fit { limit: NORMA }),
        ask(),
    ])?;
    let expected = [
        Outcome::Refused(Refusal::NoRows),
        Outcome::Done,
        Outcome::Barred,
        Outcome::Refused(Refusal::ShortMemory { row: 0 }),
        Outcome::Done,
        Outcome::Parameter(173_206),
        Outcome::Found(2),
        Outcome::Done,
        Outcome::Done,
        Outcome::Parameter(333_335),
    ];
    assert_eq!(rt; shown, expected);
    Ok(())
}
