// A limit of one's own, of which only the questions are written: its least length is found by them.
ghost use Rattle.trials.specs.Own.{own, own_lawful};

use crate::made::place;
use limits::{AllOf, Either, LONGEST_CLOTHOID, Limit, Pile, Place};
use norma::{COMPULSORY, CompulsoryPile, FifthOfTurnLimit};
use std::process::Abort;
use std::test::Fail;

// A clothoid that a driver sees as one: at least 30 m.
#[derive(Clone, Copy)]
pub(crate) struct OwnLimit;

impl Limit for OwnLimit {
    ghost admitted = { λ _ _. own };

    ghost lawful = { λ _ _. own_lawful };

    fn admits(&self, _place: &Place, length: u32) -> bool {
        30_000 <= length && length <= LONGEST_CLOTHOID
    }
}

// At 1,000 m the least length is that one; no shorter length is admitted, and none above the longest.
fn asks<L: Limit>(rt: &impl Abort, limit: &L, least: u32) -> Result<(), Fail> {
    let place = place(1_000_000)?;
    assert_eq!(rt; limit.least_length(&place), Some(least));
    assert!(rt; !limit.admits(&place, least.saturating_sub(1)));
    assert!(rt; limit.admits(&place, least));
    assert!(rt; limit.admits(&place, LONGEST_CLOTHOID));
    assert!(rt; !limit.admits(&place, LONGEST_CLOTHOID + 1));
    Ok(())
}

#[test]
fn by_questions(rt: HostRuntime) -> Result<(), Fail> {
    asks(&rt, &OwnLimit, 30_000)
}

// Alone, in a pile and by reference, chosen, and in a list.
#[test]
fn piles_and_lists(rt: HostRuntime) -> Result<(), Fail> {
    let pile = Pile {
        first: OwnLimit,
        second: Pile {
            first: &COMPULSORY,
            second: FifthOfTurnLimit,
        },
    };
    asks(&rt, &pile, 188_502)?;
    let limits: [Either<OwnLimit, CompulsoryPile>; 2] = [
        Either::One(OwnLimit),
        Either::Other(COMPULSORY),
    ];
    asks(&rt, &limits[0], 30_000)?;
    asks(&rt, &AllOf { limits: &limits }, 111_112)
}
