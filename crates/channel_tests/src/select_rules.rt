// A rule of selection with a test of its own.

ghost use Rattle.std.specs.Prelude.{◌≡◌, ◌≤◌, Some, option_map};
ghost use Rattle.level_topology.specs.View.{facts_of_code};
ghost use Rattle.feature_select.specs.Rule.{selects};
ghost use Rattle.channel_tests.specs.Larger.{is_larger};

use crate::expect::expect_same;
use feature_select::{FaceTest, SelectRule};
use level_topology::FaceFacts;
use std::process::Abort;

// The rule that selects the faces with more corners than this number.
#[derive(Clone, Copy, Debug)]
struct LargerThan(u32);

impl FaceTest for LargerThan {
    ghost meets = { λ kept facts. is_larger (option_map (λ test. test.0) kept) facts };
}

// Returns whether the rule of corners selects a face.
fn selects_larger(size: u32, facts: &FaceFacts) -> bool
    requires { 3 ≤ facts.now.size }
    ensures { result ≡ selects (is_larger (Some size)) (facts_of_code facts.now) }
{
    let rule = SelectRule::with(LargerThan(size), |facts: &FaceFacts| {
        !facts.hole && facts.size > size
    });
    rule.holds(facts)
}

// The number of corners of a face, whether it is a hole, and whether it is selected for more than four corners.
type Row = (u32, bool, bool);

const ROWS: &[Row] = &[
    (3, false, false),
    (4, false, false),
    (5, false, true),
    (5, true, false),
];

fn rows() -> &'static [Row] {
    ROWS
}

fn expect_row(rt: &impl Abort, row: &Row) {
    let &(size, hole, want) = row;
    assert!(rt; size >= 3);
    let facts = FaceFacts {
        level: 1,
        number: 7,
        size,
        hole,
        irregular: 0,
        sharp: 0,
    };
    expect_same(rt, &selects_larger(4, &facts), &want, row);
}

#[test]
fn selects_faces_by_a_rule_of_its_own(rt: HostRuntime) {
    for row in rows() {
        expect_row(&rt, row);
    }
}
