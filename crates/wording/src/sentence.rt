//! What decides a finding, as one sentence: what stands there, and after a semicolon what its rule requires or advises.
ghost use Rattle.std.specs.Prelude.{Some};
ghost use Rattle.std.specs.Fmt.{WritesOnOk};
ghost use Rattle.wording.specs.Sentences.{clothoid_text, over_text, range_text, sense_text, unadmitted_text, too_long_text, uncalled_text, unequal_text, disharmony_text, no_arc_text, tight_radius_text, disagreement_text, small_turn_text, short_run_text, long_run_text, slight_turn_text, reason_text, sentence_text};

use crate::neighbours::Neighbour;
use crate::reason::{Clothoid, Disagreement, Reason};
use figures::ADVISED_TURN;
use figures::lengths::{harmonious_entries, longest_length, longest_pair};
use rows::{Curve, End};
use std::fmt;
use units::Scale;

/// What decides a finding in plain words, its figures in the units of a scale: what stands there, and after a semicolon what its rule requires or advises.
///
/// Without a reason it says that the row is not there.
#[derive(Clone, Copy, Debug, PartialEq, Eq)]
pub struct Sentence {
    /// What decides the finding, if there is one.
    pub reason: Option<Reason>,
    /// The units of its lengths and turns.
    pub scale: Scale,
}

impl fmt::Display for Sentence {
    ghost output = { λ sentence. Some (sentence_text sentence.scale sentence.reason) };

    fn fmt<W: fmt::Write>(&self, f: &mut fmt::Formatter<W>) -> fmt::Result {
        match self.reason {
            Some(reason) => write_reason(f, self.scale, reason),
            None => f.write_str("the row is not there"),
        }
    }
}

fn write_reason<W: fmt::Write>(
    f: &mut fmt::Formatter<W>,
    scale: Scale,
    reason: Reason,
) -> fmt::Result
    ensures { WritesOnOk W.write_str_gives f.old result (reason_text scale reason) f.new }
{
    match reason {
        Reason::Unadmitted { clothoid, least } => write_unadmitted(f, scale, clothoid, least),
        Reason::TooLong { clothoid, least } => write_too_long(f, scale, clothoid, least),
        Reason::Uncalled(clothoid) => write_uncalled(f, scale, clothoid),
        Reason::Unequal(curve) => write_unequal(f, scale, curve),
        Reason::Disharmony { before, entry } => write_disharmony(f, scale, before, entry),
        Reason::NoArc(curve) => write_no_arc(f, scale, curve),
        Reason::TightRadius { radius, least } => write_tight_radius(f, scale, radius, least),
        Reason::Disagreeing(disagreement) => write_disagreement(f, scale, disagreement),
        Reason::SmallTurn { curve, least } => write_small_turn(f, scale, curve, least),
        Reason::ShortRun {
            run,
            same_sense,
            shortest,
        } => write_short_run(f, scale, run, same_sense, shortest),
        Reason::LongRun { run, longest } => write_long_run(f, scale, run, longest),
        Reason::SlightTurn { turn } => write_slight_turn(f, scale, turn),
    }
}

// A clothoid with its length.
#[derive(Clone, Copy)]
struct ClothoidShown {
    clothoid: Clothoid,
    scale: Scale,
}

impl fmt::Display for ClothoidShown {
    ghost output = { λ shown. Some (clothoid_text shown.scale shown.clothoid) };

    fn fmt<W: fmt::Write>(&self, f: &mut fmt::Formatter<W>) -> fmt::Result {
        let end = self.clothoid.end;
        let length = self.scale.length(self.clothoid.length as u64);
        write!(f, "{end} clothoid of {length}")
    }
}

// A run between two curves, where there is one.
#[derive(Clone, Copy)]
struct RunShown {
    run: u64,
    scale: Scale,
}

impl fmt::Display for RunShown {
    ghost output = { λ over. Some (over_text over.scale over.run) };

    fn fmt<W: fmt::Write>(&self, f: &mut fmt::Formatter<W>) -> fmt::Result {
        if self.run == 0 {
            return Ok(());
        }
        let run = self.scale.length(self.run);
        write!(f, " over {run} of straight")
    }
}

// The lengths or radii from a least one, up to a greatest if there is one: mm.
#[derive(Clone, Copy)]
struct RangeShown {
    least: u64,
    greatest: Option<u64>,
    scale: Scale,
}

impl fmt::Display for RangeShown {
    ghost output = { λ range. Some (range_text range.scale range.least range.greatest) };

    fn fmt<W: fmt::Write>(&self, f: &mut fmt::Formatter<W>) -> fmt::Result {
        let least = self.scale.length(self.least);
        match self.greatest {
            Some(greatest) => write!(f, "from {least} to {}", self.scale.length(greatest)),
            None => write!(f, "at least {least}"),
        }
    }
}

// The sense in which radii are judged, where it is not the road's own.
#[derive(Clone, Copy)]
struct SenseShown(End);

impl fmt::Display for SenseShown {
    ghost output = { λ sense. Some (sense_text sense.0) };

    fn fmt<W: fmt::Write>(&self, f: &mut fmt::Formatter<W>) -> fmt::Result {
        f.write_str(match self.0 {
            End::Entry => "",
            End::Exit => " in the return sense",
        })
    }
}

// Rule 1.
fn write_unadmitted<W: fmt::Write>(
    f: &mut fmt::Formatter<W>,
    scale: Scale,
    clothoid: Clothoid,
    least: Option<u32>,
) -> fmt::Result
    ensures { WritesOnOk W.write_str_gives f.old result (unadmitted_text scale clothoid least) f.new }
{
    let clothoid = ClothoidShown { clothoid, scale };
    match least {
        Some(least) => {
            let least = scale.length(least as u64);
            write!(f, "{clothoid}; at least {least} required")
        }
        None => write!(f, "{clothoid}; no length is admitted"),
    }
}

// Rule 2.
fn write_too_long<W: fmt::Write>(
    f: &mut fmt::Formatter<W>,
    scale: Scale,
    clothoid: Clothoid,
    least: Option<u32>,
) -> fmt::Result
    ensures { WritesOnOk W.write_str_gives f.old result (too_long_text scale clothoid least) f.new }
{
    let clothoid = ClothoidShown { clothoid, scale };
    match least {
        Some(least) => {
            let longest = scale.length(longest_length(least));
            write!(f, "{clothoid}; at most {longest} required")
        }
        None => write!(
            f,
            "{clothoid}; at most 3/2 of the least admitted length required"
        ),
    }
}

// Rule 3.
fn write_uncalled<W: fmt::Write>(
    f: &mut fmt::Formatter<W>,
    scale: Scale,
    clothoid: Clothoid,
) -> fmt::Result
    ensures { WritesOnOk W.write_str_gives f.old result (uncalled_text scale clothoid) f.new }
{
    let clothoid = ClothoidShown { clothoid, scale };
    let none = scale.length(0);
    write!(f, "{clothoid} on a curve that has none; {none} required")
}

// Rule 4.
fn write_unequal<W: fmt::Write>(
    f: &mut fmt::Formatter<W>,
    scale: Scale,
    curve: Curve,
) -> fmt::Result
    ensures { WritesOnOk W.write_str_gives f.old result (unequal_text scale curve) f.new }
{
    let entry = scale.length(curve.entry as u64);
    let exit = scale.length(curve.exit as u64);
    write!(
        f,
        "entry of {entry} and exit of {exit}; equal lengths required in groups 1 and 2"
    )
}

// Rule 5.
fn write_disharmony<W: fmt::Write>(
    f: &mut fmt::Formatter<W>,
    scale: Scale,
    before: Neighbour,
    entry: u32,
) -> fmt::Result
    ensures { WritesOnOk W.write_str_gives f.old result (disharmony_text scale before entry) f.new }
{
    let row = before.row;
    let entries = harmonious_entries(before.curve.exit);
    let entry = scale.length(entry as u64);
    let exit = scale.length(before.curve.exit as u64);
    let range = RangeShown {
        least: entries.least,
        greatest: Some(entries.longest),
        scale,
    };
    write!(
        f,
        "entry of {entry} beside the exit of {exit} in row {row}; {range} required"
    )
}

// Rule 6.
fn write_no_arc<W: fmt::Write>(f: &mut fmt::Formatter<W>, scale: Scale, curve: Curve) -> fmt::Result
    ensures { WritesOnOk W.write_str_gives f.old result (no_arc_text scale curve) f.new }
{
    let both = scale.length(curve.entry as u64 + curve.exit as u64);
    let longest = scale.length(longest_pair(curve));
    write!(
        f,
        "clothoids of {both} together; at most {longest} leaves an arc"
    )
}

// Rule 7.
fn write_tight_radius<W: fmt::Write>(
    f: &mut fmt::Formatter<W>,
    scale: Scale,
    radius: u32,
    least: u32,
) -> fmt::Result
    ensures { WritesOnOk W.write_str_gives f.old result (tight_radius_text scale radius least) f.new }
{
    let radius = scale.length(radius as u64);
    let least = scale.length(least as u64);
    write!(f, "radius of {radius}; at least {least} required")
}

// Rule 8.
fn write_disagreement<W: fmt::Write>(
    f: &mut fmt::Formatter<W>,
    scale: Scale,
    disagreement: Disagreement,
) -> fmt::Result
    ensures { WritesOnOk W.write_str_gives f.old result (disagreement_text scale disagreement) f.new }
{
    let Disagreement {
        end,
        radius,
        neighbour,
        range,
    } = disagreement;
    let row = neighbour.row;
    let radius = scale.length(radius as u64);
    let other = scale.length(neighbour.curve.radius as u64);
    let over = RunShown {
        run: neighbour.run,
        scale,
    };
    let range = RangeShown {
        least: range.least,
        greatest: range.greatest,
        scale,
    };
    let sense = SenseShown(end);
    write!(
        f,
        "radius of {radius} after {other} in row {row}{over}; {range} required{sense}"
    )
}

// Rule 9.
fn write_small_turn<W: fmt::Write>(
    f: &mut fmt::Formatter<W>,
    scale: Scale,
    curve: Curve,
    least: u64,
) -> fmt::Result
    ensures { WritesOnOk W.write_str_gives f.old result (small_turn_text scale curve least) f.new }
{
    let radius = scale.length(curve.radius as u64);
    let turn = scale.turn(curve.turn);
    let least = scale.length(least);
    write!(
        f,
        "radius of {radius} with a turn of {turn}; at least {least} required"
    )
}

// Rule 10.
fn write_short_run<W: fmt::Write>(
    f: &mut fmt::Formatter<W>,
    scale: Scale,
    run: u64,
    same_sense: bool,
    shortest: u64,
) -> fmt::Result
    ensures { WritesOnOk W.write_str_gives f.old result (short_run_text scale run same_sense shortest) f.new }
{
    let curves = if same_sense {
        "curves of the same sense"
    } else {
        "opposite curves"
    };
    let run = scale.length(run);
    let shortest = scale.length(shortest);
    write!(
        f,
        "straight of {run} between {curves}; at least {shortest} advised"
    )
}

// Rule 11.
fn write_long_run<W: fmt::Write>(
    f: &mut fmt::Formatter<W>,
    scale: Scale,
    run: u64,
    longest: u64,
) -> fmt::Result
    ensures { WritesOnOk W.write_str_gives f.old result (long_run_text scale run longest) f.new }
{
    let run = scale.length(run);
    let longest = scale.length(longest);
    write!(f, "straight of {run}; at most {longest} advised")
}

// Rule 12.
fn write_slight_turn<W: fmt::Write>(
    f: &mut fmt::Formatter<W>,
    scale: Scale,
    turn: u32,
) -> fmt::Result
    ensures { WritesOnOk W.write_str_gives f.old result (slight_turn_text scale turn) f.new }
{
    let turn = scale.turn(turn);
    let least = scale.turn(ADVISED_TURN);
    write!(f, "turn of {turn}; at least {least} advised")
}
