//! The limits in force for a sheet.
ghost use Rattle.choice.specs.Governors.{limits_of, Governed};
ghost use Rattle.choice.specs.InForce.{in_force, in_force_lawful};

use crate::ChosenLimit;
use crate::governor::{Governing, first_governing};
use limits::{AllOf, Limit, Place};
use norma::COMPULSORY;

/// The limits under which a sheet is checked and fitted: they hold together, as a pile.
#[derive(Drop)]
pub enum LimitsInForce {
    /// those that every clothoid has to keep: comfort, transition, azimuth and shift (4.4.3)
    Compulsory,
    /// those that were named, piled in that order
    Named(Vec<ChosenLimit>),
}

impl LimitsInForce {
    /// The limit that governs a place; there is none where no limit is in force.
    pub fn governing(&self, place: &Place) -> Option<Governing>
        ensures { Governed (in_force self.now place.now) (limits_of self.now) place.now result }
    {
        match self {
            LimitsInForce::Compulsory => {
                let four = [
                    ChosenLimit::Comfort,
                    ChosenLimit::Transition,
                    ChosenLimit::Azimuth,
                    ChosenLimit::Shift,
                ];
                first_governing(&four, place)
            }
            LimitsInForce::Named(limits) => first_governing(limits.as_slice(), place),
        }
    }
}

impl Limit for LimitsInForce {
    ghost admitted = { λ limits place. in_force limits place };

    ghost lawful = { λ limits place. in_force_lawful limits place };

    fn admits(&self, place: &Place, length: u32) -> bool {
        match self {
            LimitsInForce::Compulsory => COMPULSORY.admits(place, length),
            LimitsInForce::Named(limits) => AllOf {
                limits: limits.as_slice(),
            }
            .admits(place, length),
        }
    }

    fn least_length(&self, place: &Place) -> Option<u32> {
        match self {
            LimitsInForce::Compulsory => COMPULSORY.least_length(place),
            LimitsInForce::Named(limits) => AllOf {
                limits: limits.as_slice(),
            }
            .least_length(place),
        }
    }
}
