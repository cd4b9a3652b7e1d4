//! The operations of each domain of weights, through its bound alone.
ghost use Rattle.std.specs.Prelude.{◌<◌};

use weight_laws::{Least, Pair, Reach, Rel, Small, Weight};

/// What the operations give, through the bound alone.
#[derive(Clone, Copy)]
struct Results<W> {
    zero: W,
    one: W,
    combined: W,
    extended: W,
    below: bool,
    height: u64,
}

fn seen<W: Weight>(first: W, second: W) -> Results<W> {
    first.told();
    Results {
        zero: W::zero(),
        one: W::one(),
        combined: first.combine(second),
        extended: first.extend(second),
        below: first.leq(second),
        height: first.height(),
    }
}

fn small_height<W: Small>(weight: W) -> u64 {
    weight.told();
    weight.height()
}

/// The relation with one pair.
fn leading(from: usize, to: u32) -> Rel
    requires from { from < 16 }
    requires to { to < 16 }
{
    let mut words = [0; 16];
    words[from] = 1 << to;
    Rel(words)
}

#[test]
fn relations(rt: HostRuntime) {
    let a = leading(0, 1);
    let b = leading(1, 2);
    assert!(rt; a.extend(b) == leading(0, 2));
    assert!(rt; b.extend(a) == Rel::zero());
    assert!(rt; a.combine(b) == b.combine(a));
    assert!(rt; a.combine(b).extend(a.combine(b)) == leading(0, 2));
    let all = Rel([0xffff; 16]);
    assert!(rt; all.extend(all) == all);
    assert!(rt; leading(15, 15).extend(leading(15, 0)) == leading(15, 0));
    let got = seen(a, all);
    assert!(rt; got.zero.extend(all) == got.zero);
    assert!(rt; got.one.extend(all) == all);
    assert!(rt; got.combined == all);
    assert!(rt; got.extended.leq(all) && got.below);
    assert_eq!(rt; small_height(all), 0);
    assert_eq!(rt; got.height, 16 * 65535 - 2);
}

#[test]
fn truth_and_costs(rt: HostRuntime) {
    for (a, b) in [(false, false), (false, true), (true, false), (true, true)] {
        let got = seen(Reach(a), Reach(b));
        assert_eq!(rt; got.combined.0, a || b, "{a} or {b}");
        assert_eq!(rt; got.extended.0, a && b, "{a} and {b}");
        assert_eq!(rt; got.below, !a || b, "{a} below {b}");
        assert!(rt; got.one.0 && !got.zero.0);
    }
    for (a, b, least, sum, below) in [
        (2, 3, 2, 5, false),
        (3, 2, 2, 5, true),
        (0, 7, 0, 7, false),
        (u32::MAX, 1, 1, u32::MAX, true),
        (u32::MAX - 1, 2, 2, u32::MAX, true),
    ] {
        let got = seen(Least(a), Least(b));
        assert_eq!(rt; got.combined.0, least, "{a} or {b}");
        assert_eq!(rt; got.extended.0, sum, "{a} then {b}");
        assert_eq!(rt; got.below, below, "{a} below {b}");
        assert_eq!(rt; got.height, a as u64);
    }
}

#[test]
fn pairs(rt: HostRuntime) {
    let got = seen(Pair(Reach(true), Least(4)), Pair(Reach(false), Least(3)));
    assert!(rt; got.combined == Pair(Reach(true), Least(3)));
    assert!(rt; got.extended == Pair(Reach(false), Least(7)));
    assert!(rt; !got.below);
    assert_eq!(rt; got.height, 4);
    assert!(rt; got.one == Pair(Reach(true), Least(0)));
    assert!(rt; got.zero == Pair(Reach(false), Least(u32::MAX)));
}
