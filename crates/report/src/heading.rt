//! What a table begins with.
ghost use Rattle.std.specs.Prelude.{Some};
ghost use Rattle.report.specs.Headings.{road_name, road_heading, counted_text, sheet_heading};

use road::Road;
use std::fmt;
use units::Metres;

// The class, speed and group of a road.
#[derive(Clone, Copy)]
struct RoadName<'a>(&'a Road);

impl fmt::Display for RoadName<'_> {
    ghost output = { λ name. Some (road_name name.0.now) };

    fn fmt<W: fmt::Write>(&self, f: &mut fmt::Formatter<W>) -> fmt::Result {
        let class = self.0.class;
        let speed = self.0.speed;
        let group = self.0.group.number();
        write!(f, "{class}-{speed}, group {group}")
    }
}

/// A road with all that its clothoids depend on: class, speed in km/h, group (Table 4.4), least radius and edge distance in metres, lanes turning (4.4.3.2) and J in m/s³ (Table 4.6).
#[derive(Clone, Copy)]
pub struct RoadHeading<'a>(pub &'a Road);

impl fmt::Display for RoadHeading<'_> {
    ghost output = { λ heading. Some (road_heading heading.0.now) };

    fn fmt<W: fmt::Write>(&self, f: &mut fmt::Formatter<W>) -> fmt::Result {
        let name = RoadName(self.0);
        let least = Metres(self.0.least_radius as u64);
        let edge = Metres(self.0.edge as u64);
        let lanes = self.0.lanes;
        let jerk = self.0.jerk;
        write!(
            f,
            "road {name}, least radius {least} m, edge distance {edge} m, lanes turning {lanes}, J 0.{jerk} m/s3"
        )
    }
}

/// So many of something: `1 row`, `3 rows`.
#[derive(Clone, Copy, PartialEq, Eq, Debug)]
pub struct Counted {
    /// How many.
    pub count: usize,
    /// Its name in the singular.
    pub what: &'static str,
}

impl fmt::Display for Counted {
    ghost output = { λ counted. Some (counted_text counted.count counted.what.now) };

    fn fmt<W: fmt::Write>(&self, f: &mut fmt::Formatter<W>) -> fmt::Result {
        let count = self.count;
        let what = self.what;
        if count == 1 {
            write!(f, "1 {what}")
        } else {
            write!(f, "{count} {what}s")
        }
    }
}

/// The mark of a sheet, and how many rows it has: `fitted sheet, 3 rows`, `draft, 1 row`.
#[derive(Clone, Copy, PartialEq, Eq, Debug)]
pub struct SheetHeading {
    /// Whether it is fitted; else it is a draft.
    pub fitted: bool,
    /// The number of its rows.
    pub count: usize,
}

impl fmt::Display for SheetHeading {
    ghost output = { λ heading. Some (sheet_heading heading.fitted heading.count) };

    fn fmt<W: fmt::Write>(&self, f: &mut fmt::Formatter<W>) -> fmt::Result {
        let rows = Counted {
            count: self.count,
            what: "row",
        };
        if self.fitted {
            write!(f, "fitted sheet, {rows}")
        } else {
            write!(f, "draft, {rows}")
        }
    }
}
