// Numbers that no line of input reaches.
use findings::Side;
use road::Refusal;
use roots::{clothoid_parameter, root_up};
use superelevation::{Group, step_radii, superelevation};

#[test]
fn roots_at_the_ends(rt: HostRuntime) {
    assert_eq!(rt; [root_up(0), root_up(u64::MAX)], [0, 4_294_967_296]);
    for root in [1, 46_340, 65_536, 4_294_967_294] {
        let square = u64::saturating_mul(root, root);
        assert_eq!(rt; root_up(square), root);
        assert_eq!(rt; root_up(square.saturating_add(1)), root.saturating_add(1));
    }
    assert_eq!(rt; clothoid_parameter(u32::MAX, u32::MAX), u32::MAX);
    assert_eq!(rt; clothoid_parameter(u32::MAX, 1), 65_536);
}

// How many hundredths the superelevation drops by steps, and what no radius and every radius has.
#[test]
fn superelevations_at_the_ends(rt: HostRuntime) {
    for (group, count, top) in [
        (Group::One, 600, 800),
        (Group::Two, 600, 800),
        (Group::Three, 499, 700),
    ] {
        assert_eq!(rt; step_radii(group).len(), count);
        assert_eq!(rt; superelevation(group, 0), top);
        assert_eq!(rt; superelevation(group, u32::MAX), 0);
    }
}

// The number of a refusal that no line of input is given, and the numbers of sides, which are shown as words.
#[test]
fn numbers_not_shown(rt: HostRuntime) {
    let refusal = Refusal::ShortMemory { row: 3 };
    assert_eq!(rt; (refusal.number(), refusal.row()), (7, 3));
    let sides = [
        Side::Whole.number(),
        Side::Entry.number(),
        Side::Exit.number(),
    ];
    assert_eq!(rt; sides, [0, 1, 2]);
}
