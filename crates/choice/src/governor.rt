//! The limit that governs a place: of the limits in force the one that wants the longest clothoid there.
ghost use Rattle.limits.specs.All.{all_of};
ghost use Rattle.choice.specs.Chosen.{chosen};
ghost use Rattle.choice.specs.Governors.{Governed};

use crate::ChosenLimit;
use limit_names::LimitName;
use limits::{AllOf, Limit, Place};

/// The limit that governs a place: the first in force whose least length there is that of all of them together.
#[derive(Clone, Copy, PartialEq, Eq, Debug)]
pub struct Governing {
    /// which of the limits in force it is, from 1
    pub number: usize,
    /// the name that a `limit` line calls it by
    pub name: LimitName,
    /// its least length, mm, which is that of all of them together; there is none where it admits no length
    pub least: Option<u32>,
}

// The first limit whose least length is that of all.
pub(crate) fn first_governing(limits: &[ChosenLimit], place: &Place) -> Option<Governing>
    ensures { Governed (all_of (λ limit. chosen limit place.now) limits.now) limits.now place.now result }
{
    let least = AllOf { limits }.least_length(place);
    for (at, limit) in limits.iter().enumerate() {
        if limit.least_length(place) == least {
            let name = limit.name();
            return Some(Governing {
                number: at + 1,
                name,
                least,
            });
        }
    }
    None
}
