//! The label of a curve: how long its clothoids must be, and why.
#![tactic(auto)]

ghost use Rattle.label.specs.Labels.{Labelled, ParameterOf};

use limits::{Limit, Place};
use norma::{
    AzimuthLimit, ComfortLimit, FifthOfTurnLimit, ShiftLimit, TransitionLimit, compulsory_length,
};
use road::{Refusal, Road};
use roots::clothoid_parameter;

/// What a drawing says of the clothoids of a curve. A least length is `None` where nothing is admitted.
#[derive(Clone, Copy, PartialEq, Eq, Debug)]
pub struct Label {
    /// hundredths of a percent
    pub superelevation: u32,
    /// the least length for comfort, mm
    pub comfort: Option<u32>,
    /// the least length for the transition of the superelevation, mm
    pub transition: Option<u32>,
    /// the least length for the azimuth, mm
    pub azimuth: Option<u32>,
    /// the least length for the shift, mm
    pub shift: Option<u32>,
    /// the least length for a fifth of the turn, mm
    pub fifth: Option<u32>,
    /// the least length under the compulsory pile, mm
    pub least: Option<u32>,
    /// the clothoid's parameter at that length, mm
    pub parameter: Option<u32>,
}

// The parameter at a length, where there is one.
fn parameter_at(radius: u32, length: Option<u32>) -> Option<u32>
    ensures { ParameterOf radius length result }
{
    length.map(|length| clothoid_parameter(radius, length))
}

impl Label {
    /// The label of a curve of that radius (mm) and turn (ten-thousandths of a gon), or the refusal of the first of the two that is outside its range: 4, 5.
    pub fn at(road: &Road, radius: u32, turn: u32) -> Result<Label, Refusal>
        ensures { Labelled road.now radius turn result }
    {
        let place = Place::new(road, radius, turn)?;
        let least = compulsory_length(&place);
        Ok(Label {
            superelevation: place.superelevation,
            comfort: ComfortLimit.least_length(&place),
            transition: TransitionLimit.least_length(&place),
            azimuth: AzimuthLimit.least_length(&place),
            shift: ShiftLimit.least_length(&place),
            fifth: FifthOfTurnLimit.least_length(&place),
            least,
            parameter: parameter_at(place.radius, least),
        })
    }
}
