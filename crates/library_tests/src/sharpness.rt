// Sharpness of edges and vertices, its decrease from level to level, rules and weights.

use crate::expect::expect_same;
use sharpness_rules::{
    Rule, SharpOverflow, Sharpness, Weight, chaikin_child, transition_weight, uniform_child,
    vertex_rule,
};
use std::process::Abort;
use std::test::Fail;

// A sharpness as a table names it. `Of(a, b)` is the one made from the fraction `a / b`.
#[derive(Clone, Copy, Debug)]
enum Named {
    Smooth,
    Of(u64, u64),
    Infinite,
}

use Named::{Infinite, Of, Smooth};

fn sharpness_of(rt: &impl Abort, named: Named) -> Sharpness {
    match named {
        Smooth => Sharpness::Smooth,
        Of(num, den) => {
            assert!(rt; 0 < den && den <= TOP);
            Sharpness::new(num, den)
        }
        Infinite => Sharpness::Infinite,
    }
}

// The greatest denominator.
const TOP: u64 = 1 << 60;

// A sharpness and its uniform child. Smooth and infinite ones do not change, even if they are made from a fraction.
const UNIFORM: &[(Named, Named)] = &[
    (Of(0, 7), Smooth),
    (Of(20, 2), Infinite),
    (Of(10 * TOP, TOP), Infinite),
    (Smooth, Smooth),
    (Infinite, Infinite),
    (Of(5, 2), Of(3, 2)),
    (Of(1, 1), Smooth),
    (Of(1, 2), Smooth),
];

fn uniform() -> &'static [(Named, Named)] {
    UNIFORM
}

#[test]
fn makes_uniform_children(rt: HostRuntime) {
    for row in uniform() {
        let &(parent, want) = row;
        let child = uniform_child(sharpness_of(&rt, parent));
        expect_same(&rt, &child, &sharpness_of(&rt, want), row);
    }
}

// Two edges that meet at a vertex, and their halves there; no halves if a denominator is too long.
type Halves = (Named, Named, Option<(Named, Named)>);

const HALVES: &[Halves] = &[
    (Of(2, 1), Of(4, 1), Some((Of(3, 2), Of(5, 2)))),
    (Of(1, 1 << 59), Of(1, 3), None),
    (
        Of(3, 1 << 58),
        Of(2, 1),
        Some((Smooth, Of((1 << 59) + 3, TOP))),
    ),
    (Of(3, 1 << 59), Of(2, 1), None),
    (Of(2, 1), Infinite, Some((Of(1, 1), Infinite))),
    (Of(1, TOP), Smooth, Some((Smooth, Smooth))),
];

fn halves() -> &'static [Halves] {
    HALVES
}

#[test]
fn makes_chaikin_children(rt: HostRuntime) {
    for row in halves() {
        let &(first, second, want) = row;
        let ring = [sharpness_of(&rt, first), sharpness_of(&rt, second)];
        let want = match want {
            Some((first, second)) => (Ok(sharpness_of(&rt, first)), Ok(sharpness_of(&rt, second))),
            None => (Err(SharpOverflow), Err(SharpOverflow)),
        };
        let given = (chaikin_child(&ring, 0), chaikin_child(&ring, 1));
        expect_same(&rt, &given, &want, row);
    }
}

// The edges at a vertex that is not sharp itself, and its rule.
type Ruled = (Four, Rule);

type Four = (Named, Named, Named, Named);

const RULES: &[Ruled] = &[
    ((Smooth, Smooth, Smooth, Smooth), Rule::Smooth),
    ((Smooth, Of(1, 2), Smooth, Smooth), Rule::Dart),
    (
        (Of(1, 2), Smooth, Smooth, Infinite),
        Rule::Crease {
            first: 0,
            second: 3,
        },
    ),
    (
        (Smooth, Of(1, 2), Infinite, Smooth),
        Rule::Crease {
            first: 1,
            second: 2,
        },
    ),
    ((Of(1, 2), Of(1, 2), Smooth, Of(1, 2)), Rule::Corner),
    ((Infinite, Infinite, Infinite, Infinite), Rule::Corner),
];

fn rules() -> &'static [Ruled] {
    RULES
}

fn ring_of(rt: &impl Abort, edges: Four) -> [Sharpness; 4] {
    let (first, second, third, fourth) = edges;
    [
        sharpness_of(rt, first),
        sharpness_of(rt, second),
        sharpness_of(rt, third),
        sharpness_of(rt, fourth),
    ]
}

#[test]
fn tells_rules(rt: HostRuntime) {
    for row in rules() {
        let &(edges, want) = row;
        let ring = ring_of(&rt, edges);
        let smooth = vertex_rule(Sharpness::Smooth, &ring);
        let sharp = vertex_rule(Sharpness::Infinite, &ring);
        expect_same(&rt, &(smooth, sharp), &(want, Rule::Corner), row);
    }
    let no_edge = vertex_rule(Sharpness::Smooth, &[]);
    expect_same(&rt, &no_edge, &Rule::Corner, &"no edge");
}

// The sharpness of a vertex and of its two edges, now and in the next level, and the weight between the rules.
type Weighed = (Three, Three, Result<Weight, SharpOverflow>);

type Three = (Named, Named, Named);

const FINE: Named = Of(1, 1 << 59);

const ENDS: Three = (Smooth, Smooth, Smooth);

const WEIGHTS: &[Weighed] = &[
    (
        (Smooth, Of(1, 2), Of(1, 3)),
        ENDS,
        Ok(Weight { num: 5, den: 12 }),
    ),
    (
        (Of(1, 2), Of(1, 2), Smooth),
        ENDS,
        Ok(Weight { num: 1, den: 2 }),
    ),
    (
        (Of(1, 3), Of(1, 2), Of(1, 2)),
        ENDS,
        Ok(Weight { num: 4, den: 9 }),
    ),
    (
        (Smooth, Of(5, 2), Smooth),
        ENDS,
        Ok(Weight { num: 1, den: 1 }),
    ),
    (
        (Smooth, FINE, FINE),
        ENDS,
        Ok(Weight {
            num: 1,
            den: 1 << 59,
        }),
    ),
    ((FINE, FINE, FINE), ENDS, Err(SharpOverflow)),
    ((Smooth, FINE, Of(1, 3)), ENDS, Err(SharpOverflow)),
    (
        (Of(3, 2), Of(3, 2), Of(1, 3)),
        (Of(1, 2), Of(1, 2), Smooth),
        Ok(Weight { num: 1, den: 3 }),
    ),
];

fn weights() -> &'static [Weighed] {
    WEIGHTS
}

#[test]
fn weighs_transitions(rt: HostRuntime) {
    for row in weights() {
        let &((vertex, first, second), (next, first_next, second_next), want) = row;
        let given = transition_weight(
            sharpness_of(&rt, vertex),
            sharpness_of(&rt, next),
            &[sharpness_of(&rt, first), sharpness_of(&rt, second)],
            &[
                sharpness_of(&rt, first_next),
                sharpness_of(&rt, second_next),
            ],
        );
        expect_same(&rt, &given, &want, row);
    }
}

// Rings as long as the longest of a mesh.
#[test]
fn takes_long_rings(rt: HostRuntime) -> Result<(), Fail> {
    let same = vec![in rt.alloc(); Sharpness::new(5, 3); 65_536]?;
    let none = vec![in rt.alloc(); Sharpness::Smooth; 65_536]?;
    let child = chaikin_child(&same, 65_535);
    let rule = vertex_rule(Sharpness::Smooth, &none);
    let weight = transition_weight(Sharpness::new(1, 3), Sharpness::Smooth, &same, &none);
    let want = (
        Ok(Sharpness::new(2, 3)),
        Rule::Smooth,
        Ok(Weight { num: 1, den: 1 }),
    );
    expect_same(&rt, &(child, rule, weight), &want, &"long rings");
    Ok(())
}
