//! The ranges of a curve's radius and turn, for every call that takes the two.
ghost use Rattle.std.specs.Prelude.{MatchResult};
ghost use Rattle.road.specs.Refusals.{Clear};
ghost use Rattle.limits.specs.Places.{place_grounds, NoPlace};

use road::OutOfRange;

/// The radius of the tightest curve that a row may have, mm. The office's own; a road asks for more.
pub const TIGHTEST_RADIUS: u32 = 1_000;

/// The radius of the widest curve that a row may have, mm. The office's own.
pub const WIDEST_RADIUS: u32 = 10_000_000;

/// The greatest turn that a row may have, ten-thousandths of a gon: 200 gon, half a circle; a row may turn by 1 and more. The office's own.
pub const GREATEST_TURN: u32 = 2_000_000;

/// Whether the radius (mm) and the turn (ten-thousandths of a gon) of a curve are in their ranges, or the first of the two that is not.
pub fn check_curve(radius: u32, turn: u32) -> Result<(), OutOfRange>
    ensures { MatchResult result (λ _. Clear (place_grounds radius turn)) (NoPlace radius turn) }
{
    if !(TIGHTEST_RADIUS..=WIDEST_RADIUS).contains(&radius) {
        return Err(OutOfRange::Radius);
    }
    if !(1..=GREATEST_TURN).contains(&turn) {
        return Err(OutOfRange::Turn);
    }
    Ok(())
}
