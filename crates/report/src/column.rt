//! Numbers as columns of a table: on the right of ten characters.
ghost use Rattle.std.specs.Prelude.{Some};
ghost use Rattle.report.specs.Columns.{metres_column, gon_column, percent_column};

use std::fmt;

/// A length in millimetres, any number, as metres with three decimals; longer than ten characters where it has to be.
#[derive(Clone, Copy, PartialEq, Eq, Debug)]
pub struct MetresColumn(pub u32);

impl fmt::Display for MetresColumn {
    ghost output = { λ column. Some (metres_column column.0) };

    fn fmt<W: fmt::Write>(&self, f: &mut fmt::Formatter<W>) -> fmt::Result {
        let metres = self.0 / 1_000;
        let thousandths = self.0 % 1_000;
        write!(f, "{metres:>6}.{thousandths:03}")
    }
}

/// A turn in ten-thousandths of a gon, any number, as gon with four decimals; longer than ten characters where it has to be.
#[derive(Clone, Copy, PartialEq, Eq, Debug)]
pub struct GonColumn(pub u32);

impl fmt::Display for GonColumn {
    ghost output = { λ column. Some (gon_column column.0) };

    fn fmt<W: fmt::Write>(&self, f: &mut fmt::Formatter<W>) -> fmt::Result {
        let gon = self.0 / 10_000;
        let parts = self.0 % 10_000;
        write!(f, "{gon:>5}.{parts:04}")
    }
}

/// A slope in hundredths of a percent, any number, as percent with two decimals; longer than ten characters where it has to be.
#[derive(Clone, Copy, PartialEq, Eq, Debug)]
pub struct PercentColumn(pub u32);

impl fmt::Display for PercentColumn {
    ghost output = { λ column. Some (percent_column column.0) };

    fn fmt<W: fmt::Write>(&self, f: &mut fmt::Formatter<W>) -> fmt::Result {
        let percent = self.0 / 100;
        let hundredths = self.0 % 100;
        write!(f, "{percent:>7}.{hundredths:02}")
    }
}
