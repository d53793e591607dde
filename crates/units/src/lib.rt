//! Lengths, turns and slopes as people read them: whole numbers of small units, shown in those or in larger ones.
#![tactic(auto)]

ghost use Rattle.std.specs.Prelude.{◌≡◌, Some};
ghost use Rattle.units.specs.Units.{metres_text, gon_text, percent_text, length_text, turn_text};

use std::fmt;

/// A length in millimetres, any number, shown in metres with three decimals: `138.999`.
#[derive(Clone, Copy, PartialEq, Eq, Debug)]
pub struct Metres(pub u64);

impl fmt::Display for Metres {
    ghost output = { λ length. Some (metres_text length.0) };

    fn fmt<W: fmt::Write>(&self, f: &mut fmt::Formatter<W>) -> fmt::Result {
        let metres = self.0 / 1_000;
        let thousandths = self.0 % 1_000;
        write!(f, "{metres}.{thousandths:03}")
    }
}

/// A turn in ten-thousandths of a gon, any number, shown in gon with four decimals: `1.9999`.
#[derive(Clone, Copy, PartialEq, Eq, Debug)]
pub struct Gon(pub u32);

impl fmt::Display for Gon {
    ghost output = { λ turn. Some (gon_text turn.0) };

    fn fmt<W: fmt::Write>(&self, f: &mut fmt::Formatter<W>) -> fmt::Result {
        let gon = self.0 / 10_000;
        let parts = self.0 % 10_000;
        write!(f, "{gon}.{parts:04}")
    }
}

/// A slope in hundredths of a percent, any number, shown in percent with two decimals: `6.47`.
#[derive(Clone, Copy, PartialEq, Eq, Debug)]
pub struct Percent(pub u32);

impl fmt::Display for Percent {
    ghost output = { λ slope. Some (percent_text slope.0) };

    fn fmt<W: fmt::Write>(&self, f: &mut fmt::Formatter<W>) -> fmt::Result {
        let percent = self.0 / 100;
        let hundredths = self.0 % 100;
        write!(f, "{percent}.{hundredths:02}")
    }
}

/// The units that a text has its lengths and turns in.
#[derive(Clone, Copy, PartialEq, Eq, Debug)]
pub enum Scale {
    /// Millimetres and ten-thousandths of a gon, as commands are typed.
    Millimetres,
    /// Metres and gon, as plans are read.
    Metres,
}

impl Scale {
    /// A length in millimetres, to be shown in these units.
    pub fn length(self, millimetres: u64) -> Length
        ensures { result ≡ record { millimetres = millimetres; scale = self } }
    {
        Length {
            millimetres,
            scale: self,
        }
    }

    /// A turn in ten-thousandths of a gon, to be shown in these units.
    pub fn turn(self, parts: u32) -> Turn
        ensures { result ≡ record { parts = parts; scale = self } }
    {
        Turn { parts, scale: self }
    }
}

/// A length with its unit: `138999 mm` or `138.999 m`.
#[derive(Clone, Copy, PartialEq, Eq, Debug)]
pub struct Length {
    /// Any number of millimetres.
    pub millimetres: u64,
    /// The units that it is shown in.
    pub scale: Scale,
}

impl fmt::Display for Length {
    ghost output = { λ length. Some (length_text length.scale length.millimetres) };

    fn fmt<W: fmt::Write>(&self, f: &mut fmt::Formatter<W>) -> fmt::Result {
        let millimetres = self.millimetres;
        match self.scale {
            Scale::Millimetres => write!(f, "{millimetres} mm"),
            Scale::Metres => write!(f, "{} m", Metres(millimetres)),
        }
    }
}

/// A turn with its unit: `19999 ten-thousandths of a gon` or `1.9999 gon`.
#[derive(Clone, Copy, PartialEq, Eq, Debug)]
pub struct Turn {
    /// Any number of ten-thousandths of a gon.
    pub parts: u32,
    /// The units that it is shown in.
    pub scale: Scale,
}

impl fmt::Display for Turn {
    ghost output = { λ turn. Some (turn_text turn.scale turn.parts) };

    fn fmt<W: fmt::Write>(&self, f: &mut fmt::Formatter<W>) -> fmt::Result {
        let parts = self.parts;
        match self.scale {
            Scale::Millimetres => write!(f, "{parts} ten-thousandths of a gon"),
            Scale::Metres => write!(f, "{} gon", Gon(parts)),
        }
    }
}
