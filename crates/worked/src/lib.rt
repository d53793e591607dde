//! Curves worked by hand: what the definitions give them, and what the code answers.
#![tactic(auto)]

ghost use Rattle.std.specs.Prelude.{◌≡◌, Ok};
ghost use Rattle.worked.specs.Worked.{Worked, example_label};

use label::Label;
use road::{Class, JerkChoice, Refusal, Road, RoadDesign};

/// The label of the example curve: a conventional road for 100 km/h with one lane of 3.5 m turning and the usual J, 1,000 m and 30 gon.
pub fn worked_label() -> Result<Label, Refusal>
    ensures table { Worked }
    ensures value { result ≡ Ok example_label }
{
    let road = Road::open(RoadDesign {
        class: Class::C,
        speed: 100,
        edge: 3_500,
        lanes: 1,
        choice: JerkChoice::Usual,
    })?;
    Label::at(&road, 1_000_000, 300_000)
}
