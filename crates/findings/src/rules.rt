// The tests of the rules.
ghost use Rattle.std.specs.Prelude.{◌≡◌, nat_lt};
ghost use Rattle.figures.specs.Runs.{longest_run_lem};
ghost use Rattle.findings.specs.Walk.{unadmitted, is_too_long, uncalled_for, unequal, discordant, disharmonious, strays, short_between, begins, curve_breaks_lem, straight_breaks_lem, breaks};

use crate::kind::Kind;
use crate::walk::{Clothoids, Context, Flank};
use figures::{ADVISED_TURN, lengths, radii, runs};
use road::Road;
use rows::{Curve, Row, Straight};

// Rule 1. A length is admitted from the least on.
fn is_unadmitted(clothoids: Clothoids, length: u32) -> bool
    ensures { result ≡ unadmitted clothoids length }
{
    match clothoids {
        Clothoids::Uncalled => false,
        Clothoids::Called(None) => true,
        Clothoids::Called(Some(least)) => length < least,
    }
}

// Rule 2.
fn is_too_long(clothoids: Clothoids, length: u32) -> bool
    ensures { result ≡ is_too_long clothoids length }
{
    match clothoids {
        Clothoids::Called(Some(least)) => lengths::exceeds_longest(least, length),
        _ => false,
    }
}

// Rule 3.
fn is_uncalled_for(clothoids: Clothoids, length: u32) -> bool
    ensures { result ≡ uncalled_for clothoids length }
{
    match clothoids {
        Clothoids::Uncalled => length != 0,
        Clothoids::Called(_) => false,
    }
}

// Rule 4.
fn is_unequal(road: &Road, curve: Curve) -> bool
    ensures { result ≡ unequal road.now curve }
{
    road.symmetric && curve.entry != curve.exit
}

fn is_discordant(road: &Road, before: Option<Curve>, curve: Curve) -> bool
    ensures { result ≡ discordant road.now before curve }
{
    before.is_some_and(|one| one.calls_for_clothoids(road)
        && !lengths::are_harmonious(one.exit, curve.entry))
}

// Rule 5, against the curve just before.
fn lacks_harmony(road: &Road, clothoids: Clothoids, behind: Flank, curve: Curve) -> bool
    ensures { result ≡ disharmonious road.now clothoids behind curve }
{
    match clothoids {
        Clothoids::Uncalled => false,
        Clothoids::Called(_) => behind.begins_run() && is_discordant(road, behind.curve, curve),
    }
}

// Rule 8, against the radius of another curve beyond a run.
fn radius_strays(road: &Road, beyond: Flank, curve: Curve) -> bool
    ensures { result ≡ strays road.now beyond.curve beyond.run curve }
{
    beyond.curve.is_some_and(|other| !radii::follows_radius(
        road,
        beyond.run,
        other.radius,
        curve.radius,
    ))
}

// Rule 10, for a run between two curves.
fn run_is_short(road: &Road, before: Option<Curve>, run: u128, after: Option<Curve>) -> bool
    ensures { result ≡ short_between road.now before run after }
{
    before.zip(after).is_some_and(|(one, other)| run
        < runs::shortest_run(road, one.sense, other.sense) as u128)
}

// Rule 11.
fn run_is_long(road: &Road, run: u128) -> bool
    ensures { result ≡ nat_lt (longest_run_lem road.now.speed) run }
{
    (runs::longest_run(road) as u128) < run
}

impl Flank {
    // Whether a run may begin after what lies behind. Each straight has a length, so there is none where they sum to 0.
    pub(crate) fn begins_run(&self) -> bool
        ensures { result ≡ begins self.now }
    {
        self.run == 0
    }
}

// The road is handed to each method: a context is of one row, and the road is of all.
impl Context {
    // One line for each kind of a curve, so that none is left out.
    #[inline(always)]
    fn curve_breaks(&self, road: &Road, kind: Kind, curve: Curve) -> bool
        ensures { result ≡ curve_breaks_lem road.now kind self.now curve }
    {
        match kind {
            Kind::UnadmittedEntry => is_unadmitted(self.clothoids, curve.entry),
            Kind::UnadmittedExit => is_unadmitted(self.clothoids, curve.exit),
            Kind::LongEntry => is_too_long(self.clothoids, curve.entry),
            Kind::LongExit => is_too_long(self.clothoids, curve.exit),
            Kind::UncalledEntry => is_uncalled_for(self.clothoids, curve.entry),
            Kind::UncalledExit => is_uncalled_for(self.clothoids, curve.exit),
            Kind::Unequal => is_unequal(road, curve),
            Kind::Disharmony => lacks_harmony(road, self.clothoids, self.behind, curve),
            Kind::NoArc => lengths::leaves_no_arc(curve),
            Kind::TightRadius => curve.radius < road.least_radius,
            Kind::NextRadius => radius_strays(road, self.behind, curve),
            Kind::ReturnRadius => road.both_senses && radius_strays(road, self.ahead, curve),
            Kind::SmallTurn => radii::is_cramped(curve),
            Kind::SlightTurn => curve.turn < ADVISED_TURN,
            Kind::ShortRun | Kind::LongRun => false,
        }
    }

    // The run is summed in a wider type, where each sum fits.
    #[inline(always)]
    fn straight_breaks(&self, road: &Road, kind: Kind, straight: Straight) -> bool
        ensures { result ≡ straight_breaks_lem road.now kind self.now straight }
    {
        let run = straight.length as u128 + self.ahead.run as u128;
        match kind {
            Kind::ShortRun => {
                self.behind.begins_run()
                    && run_is_short(road, self.behind.curve, run, self.ahead.curve)
            }
            Kind::LongRun => self.behind.begins_run() && run_is_long(road, run),
            _ => false,
        }
    }

    // Whether the row breaks the rule of a kind.
    #[inline(always)]
    pub(crate) fn breaks(&self, road: &Road, kind: Kind) -> bool
        ensures { result ≡ breaks road.now kind self.now }
    {
        match self.row {
            Row::Curve(curve) => self.curve_breaks(road, kind, curve),
            Row::Straight(straight) => self.straight_breaks(road, kind, straight),
        }
    }
}
