// Roads and rows made for the tests.
use findings::{Finding, Rule, Side, Weight};
use limits::Place;
use plain::NewRow;
use road::{Class, JerkChoice, Refusal, Road, RoadDesign};
use rows::RowRecord;
use rows::row::Sense::{Left, Right};

// What the findings memory holds before a check.
pub(crate) const UNUSED: Finding = Finding {
    row: 99,
    rule: Rule::LeastTurn,
    side: Side::Whole,
    weight: Weight::Advice,
};

// A record that no row has.
pub(crate) const GARBAGE: RowRecord = RowRecord::Curve {
    sense: Right,
    radius: u32::MAX,
    turn: u32::MAX,
    entry: u32::MAX,
    exit: u32::MAX,
};

// A conventional road for 100 km/h with one lane of 3.5 m turning and the usual J.
pub(crate) fn road() -> Result<Road, Refusal> {
    Road::open(RoadDesign {
        class: Class::C,
        speed: 100,
        edge: 3_500,
        lanes: 1,
        choice: JerkChoice::Usual,
    })
}

// A place of 30 gon there.
pub(crate) fn place(radius: u32) -> Result<Place, Refusal> {
    Place::new(&road()?, radius, 300_000)
}

pub(crate) fn straight(length: u32) -> RowRecord {
    RowRecord::Straight { length }
}

// A curve of 30 gon to the left.
pub(crate) fn curve(radius: u32, entry: u32, exit: u32) -> RowRecord {
    RowRecord::Curve {
        sense: Left,
        radius,
        turn: 300_000,
        entry,
        exit,
    }
}

pub(crate) fn new_straight(length: u32) -> NewRow {
    NewRow::Straight { length }
}

// A curve of 30 gon to the left, to be added.
pub(crate) fn new_curve(radius: u32) -> NewRow {
    NewRow::Curve {
        sense: Left,
        radius,
        turn: 300_000,
    }
}
