//! A rule: a closure that decides a test.

ghost use Rattle.std.specs.Prelude.{◌≡◌, ◌≤◌, Some, None};
ghost use Rattle.level_topology.specs.View.{facts_of_code};
ghost use Rattle.feature_select.specs.Rule.{selects, AnswersTest};

use crate::face_test::FaceTest;
use level_topology::FaceFacts;
use std::marker::Model;

/// The closure of a caller that decides a test, with a value of the test if the rule keeps one.
#[derive(Drop)]
pub struct SelectRule<T: FaceTest, F: Fn(&FaceFacts) -> bool> {
    select: F,
    test: Option<T>,
}

impl<T: FaceTest, F: Fn(&FaceFacts) -> bool> Model for SelectRule<T, F> {
    ghost use Rattle.std.specs.Prelude.{Option};

    ghost Value = { F × Option T };

    ghost view = { λ r. (r.select, r.test) };
}

impl<T: FaceTest, F: Fn(&FaceFacts) -> bool> SelectRule<T, F> {
    /// Returns a rule without a value of its test. The closure returns true exactly if the face passes the test and is not a hole.
    pub fn new(select: F) -> SelectRule<T, F>
        requires { AnswersTest F.Fn select (T.meets None) }
        ensures rule { result ≡ (select, None) }
        ensures answers { AnswersTest F.Fn result.0 (T.meets result.1) }
    {
        SelectRule { select, test: None }
    }

    /// Returns a rule with a value of its test. The closure returns true exactly if the face passes the test at that value and is not a
    /// hole.
    pub fn with(test: T, select: F) -> SelectRule<T, F>
        requires { AnswersTest F.Fn select (T.meets (Some test)) }
        ensures rule { result ≡ (select, Some test) }
        ensures answers { AnswersTest F.Fn result.0 (T.meets result.1) }
    {
        SelectRule {
            select,
            test: Some(test),
        }
    }

    /// Whether the rule selects a face with at least three corners.
    pub fn holds(&self, facts: &FaceFacts) -> bool
        requires size { 3 ≤ facts.now.size }
        requires answers { AnswersTest F.Fn self.now.0 (T.meets self.now.1) }
        ensures { result ≡ selects (T.meets self.now.1) (facts_of_code facts.now) }
    {
        (self.select)(facts)
    }
}
