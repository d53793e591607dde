//! Runs of straights: rules 10 and 11.
ghost use Rattle.std.specs.Prelude.{◌≡◌};
ghost use Rattle.figures.specs.Runs.{shortest_run_lem, longest_run_lem};

use road::Road;
use rows::Sense;

/// Rule 10 (4.2.1): the shortest run between two curves of those senses, mm.
#[inline(always)]
pub fn shortest_run(road: &Road, one: Sense, other: Sense) -> u64
    ensures { result ≡ shortest_run_lem one other road.now.speed }
{
    let speed = road.speed as u64;
    if one == other {
        2_780 * speed
    } else {
        1_390 * speed
    }
}

/// Rule 11 (4.2.1): the longest run, mm.
#[inline(always)]
pub fn longest_run(road: &Road) -> u64
    ensures { result ≡ longest_run_lem road.now.speed }
{
    16_700 * road.speed as u64
}
