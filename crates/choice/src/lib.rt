//! A choice of limits by their names, as a line gives them: one limit of the Norma's or a client's table, the limits in force for a sheet, and which of them governs a place.
#![tactic(auto)]

pub mod governor;
pub mod in_force;

ghost use Rattle.std.specs.Prelude.{◌≡◌};
ghost use Rattle.limits.specs.declared.place.Place.{Place};
ghost use Rattle.choice.specs.Chosen.{chosen, chosen_lawful};
ghost use Rattle.choice.specs.Governors.{name_of};

use client_table::ClientTable;
pub use governor::Governing;
pub use in_force::LimitsInForce;
use limit_names::LimitName;
use limits::either::Either::{self, One, Other};
use limits::{Limit, Place};
use norma::{AzimuthLimit, ComfortLimit, FifthOfTurnLimit, ShiftLimit, TransitionLimit};

/// A limit that is chosen by its name.
#[derive(Drop)]
pub enum ChosenLimit {
    /// the change of the centrifugal acceleration (4.4.3.1)
    Comfort,
    /// the transition of the superelevation (4.4.3.2)
    Transition,
    /// a turn of the azimuth by 1/18 radian (4.4.3.3)
    Azimuth,
    /// a shift of the curve by half a metre (4.4.3.3)
    Shift,
    /// a fifth of the curve's turn (4.4.3.3), which the Norma only recommends
    FifthOfTurn,
    /// a client's own: the bytes of the client's file, in the memory that it was loaded into
    Table(Vec<u8>),
}

// One of the Norma's limits, or a client's table. No `&dyn Limit`: what such a limit admits cannot be stated yet.
type OneLimit<'a> = Either<
    Either<ComfortLimit, TransitionLimit>,
    Either<Either<AzimuthLimit, ShiftLimit>, Either<FifthOfTurnLimit, ClientTable<'a>>>,
>;

impl ChosenLimit {
    /// Its name, as a `limit` line has it.
    pub fn name(&self) -> LimitName
        ensures { result ≡ name_of self.now }
    {
        match self {
            ChosenLimit::Comfort => LimitName::Comfort,
            ChosenLimit::Transition => LimitName::Transition,
            ChosenLimit::Azimuth => LimitName::Azimuth,
            ChosenLimit::Shift => LimitName::Shift,
            ChosenLimit::FifthOfTurn => LimitName::Fifth,
            ChosenLimit::Table(_) => LimitName::Table,
        }
    }

    // The limit itself.
    fn limit(&self) -> OneLimit<'_>
        ensures { (place : Place) → ⟦<OneLimit<'static> as Limit>⟧.admitted result place ≡ chosen self.now place }
    {
        match self {
            ChosenLimit::Comfort => One(One(ComfortLimit)),
            ChosenLimit::Transition => One(Other(TransitionLimit)),
            ChosenLimit::Azimuth => Other(One(One(AzimuthLimit))),
            ChosenLimit::Shift => Other(One(Other(ShiftLimit))),
            ChosenLimit::FifthOfTurn => Other(Other(One(FifthOfTurnLimit))),
            ChosenLimit::Table(bytes) => { Other(Other(Other(ClientTable::of(bytes.as_slice())))) }
        }
    }
}

impl Limit for ChosenLimit {
    ghost admitted = { λ limit place. chosen limit place };

    ghost lawful = { λ limit place. chosen_lawful limit place };

    fn admits(&self, place: &Place, length: u32) -> bool {
        self.limit().admits(place, length)
    }

    fn least_length(&self, place: &Place) -> Option<u32> {
        self.limit().least_length(place)
    }
}
