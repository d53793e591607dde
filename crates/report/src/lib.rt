//! A sheet as a table that a person reads, with its findings below: lengths in metres, turns in gon, superelevations in percent.
#![tactic(auto)]

pub mod column;
pub mod explanation;
pub mod finding_line;
pub mod heading;
pub mod report;
pub mod table_row;

pub use column::{GonColumn, MetresColumn, PercentColumn};
pub use explanation::explained;
pub use finding_line::FindingLine;
pub use heading::{Counted, RoadHeading, SheetHeading};
pub use report::Report;
pub use table_row::TableRow;
