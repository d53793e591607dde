//! What decides a finding, in metres and gon.
use crate::explained::Explained;
use crate::sentence::Sentence;
use std::fmt;
use units::Scale;

/// What decides a finding, shown as a report has it: in metres and gon, without the finding's row, rule, side and weight.
#[derive(Clone, Copy)]
pub struct InMetres<'a>(pub Explained<'a>);

impl fmt::Display for InMetres<'_> {
    ghost use Rattle.std.specs.Prelude.{Some};
    ghost use Rattle.wording.specs.Lines.{line_in_metres};

    ghost output = { λ shown. Some (line_in_metres shown.0) };

    fn fmt<W: fmt::Write>(&self, f: &mut fmt::Formatter<W>) -> fmt::Result {
        let sentence = Sentence {
            reason: self.0.reason(),
            scale: Scale::Metres,
        };
        write!(f, "{sentence}")
    }
}
