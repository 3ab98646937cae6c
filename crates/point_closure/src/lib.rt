//! Congruence closure of points, with undo (Nelson and Oppen, JACM 1980; Downey, Sethi and Tarjan,
//! JACM 1980).
//!
//! `Closure::record`, `add`, `undo_to`: a step is recorded, or after want of memory all is as before:
//! the points, the steps, and what is equal. An undo leaves exactly the first steps.
//!
//! `Closure::same`, `met`, `explain`: `same` is true exactly where the closure of the merged pairs
//! makes the points equal; `met` has exactly the watched pairs of equal points, one pair for each
//! step that keeps points apart; merges that give an equality.
//!
//! Terms as points in classes, and why points are equal (Nelson and Oppen, JACM 1980; Nieuwenhuis
//! and Oliveras, 2007).
//!
//! `equal_points_have_one_value`, `equal_points_are_in_one_class`, `classes_are_equal`,
//! `classes_are_the_closure`: whoever makes the pairs true gives equal points one value. Numbers of
//! classes that respect pairs and applications agree at equal points. Unions that steps justify
//! join only equal points, and at rest they are the congruence closure.
//!
//! `Classes`, `Graph`, `Explainer`: classes by union with exact undo; the newest union between two
//! points; merges whose pairs give the equality of two points of one class, found in lists that are
//! kept from one explanation to the next.
#![tactic(auto)]

ghost use Rattle.point_closure.specs.Laws.{ClassesAreEqual, ClassesAreTheClosure, EqualPointsAreInOneClass, EqualPointsHaveOneValue};

mod classes;
mod closure;
mod explain;
mod file;
mod graph;
mod join;
mod lists;
mod marks;
mod meet;
mod pending;
mod points;
mod shape;
mod step;
mod table;
mod watch;

pub use classes::{Classes, NONE, Newest, Reason, Union};
pub use closure::Closure;
pub use explain::Explainer;
pub use graph::Graph;
pub use shape::Shape;
pub use step::Step;
pub use watch::Watch;

/// An interpretation that makes the merged pairs true gives equal points one value.
pub fn equal_points_have_one_value()
    ensures { EqualPointsHaveOneValue }
{}

/// Numbers of classes that respect the pairs and applications are the same at equal points.
pub fn equal_points_are_in_one_class()
    ensures { EqualPointsAreInOneClass }
{}

/// Unions that are justified by the steps put only equal points into one class.
pub fn classes_are_equal()
    ensures { ClassesAreEqual }
{}

/// Classes that are justified by the steps and at rest are the closure of the merged pairs.
pub fn classes_are_the_closure()
    ensures { ClassesAreTheClosure }
{}
