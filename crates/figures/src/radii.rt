//! Radii: rules 8 and 9. Each range is found by divisions, which the tests do without.
ghost use Rattle.std.specs.Prelude.{◌≡◌, Decides};
ghost use Rattle.limits.specs.Least.{Smallest};
ghost use Rattle.figures.specs.Radii.{Tabled, Follows, WideEnough, Cramped};
ghost use Rattle.figures.specs.Ranges.{RangeOf, tabled_radii_lem, next_radius_lem, least_radius_lem};
ghost use Rattle.figures.specs.Tests.{is_tabled_lem, follows_radius_lem, is_cramped_lem};

use crate::range::NextRadius;
use road::Road;
use rows::{CALLING_TURN, Curve};

// Rule 9: the radius times the turn against what the turn lacks.
const FOR_A_SMALL_TURN: u64 = 1_591_500;

const NO_SMALL_TURN: u64 = 130_000;

// Table 4.7; it says nothing of radii below 50 m.
#[inline(always)]
fn is_tabled(radius: u32, next: u32) -> bool
    ensures { result ≡ is_tabled_lem radius next }
{
    let r = radius as u64;
    let next = next as u64;
    if r < 50_000 {
        true
    } else if r <= 450_000 {
        50 * r + 600_600 <= 77 * next && 80 * next + 1_152_000 < 127 * r
    } else if r <= 700_000 {
        40 * r + 22_504_500 <= 135 * next && 25 * next + 32_000_000 < 110 * r
    } else if r <= 1_800_000 {
        40 * r + 22_504_500 <= 135 * next
    } else {
        next >= 700_000
    }
}

// The radii that may follow by Table 4.7.
fn tabled_radii(radius: u32) -> NextRadius
    ensures value { result ≡ tabled_radii_lem radius }
    ensures range { RangeOf (Tabled radius) result }
{
    let r = radius as u64;
    if r < 50_000 {
        NextRadius::from_least(0)
    } else if r <= 450_000 {
        NextRadius {
            least: (50 * r + 600_600).div_ceil(77),
            greatest: Some((127 * r - 1_152_001) / 80),
        }
    } else if r <= 700_000 {
        NextRadius {
            least: (40 * r + 22_504_500).div_ceil(135),
            greatest: Some((110 * r - 32_000_001) / 25),
        }
    } else if r <= 1_800_000 {
        NextRadius::from_least((40 * r + 22_504_500).div_ceil(135))
    } else {
        NextRadius::from_least(700_000)
    }
}

/// Rule 8 (4.5): whether a radius may be followed by the next, over a run of that length, 0 where there is none.
#[inline(always)]
pub fn follows_radius(road: &Road, run: u64, radius: u32, next: u32) -> bool
    ensures value { result ≡ follows_radius_lem road.now run radius next }
    ensures decides { Decides result (Follows road.now run radius next) }
{
    if run <= road.limited_run as u64 {
        is_tabled(radius, next)
    } else {
        road.radius_after_run <= next
    }
}

/// Rule 8 (4.5): the radii that may follow another over a run of that length, 0 where there is none.
pub fn next_radius(road: &Road, run: u64, radius: u32) -> NextRadius
    ensures value { result ≡ next_radius_lem road.now run radius }
    ensures range { RangeOf (Follows road.now run radius) result }
{
    if run <= road.limited_run as u64 {
        tabled_radii(radius)
    } else {
        NextRadius::from_least(road.radius_after_run as u64)
    }
}

/// Rule 9 (4.4.8): whether a curve of a small turn is not wide enough.
#[inline(always)]
pub fn is_cramped(curve: Curve) -> bool
    ensures value { result ≡ is_cramped_lem curve }
    ensures decides { Decides result (Cramped curve) }
{
    curve.turn < CALLING_TURN
        && (curve.radius as u64) * (curve.turn as u64)
            < FOR_A_SMALL_TURN * (NO_SMALL_TURN - curve.turn as u64)
}

/// Rule 9 (4.4.8): the least radius that is wide enough for the curve's turn, where that is small.
pub fn least_radius(curve: &Curve) -> u64
    ensures value { result ≡ least_radius_lem curve.now.turn }
    ensures least { Smallest (WideEnough curve.now.turn) result }
{
    let turn = curve.turn as u64;
    (FOR_A_SMALL_TURN * NO_SMALL_TURN.saturating_sub(turn)).div_ceil(turn)
}
