//! Terms as points.
ghost use Rattle.std.specs.Prelude.{◌≡◌, ◌<◌, ◌≤◌, [], ◌∷◌, ◌++◌, length, take, All, OnOk, OnErr};
ghost use Rattle.point_closure.specs.Closure.{point_at, ArePoints};

use crate::shape::Shape;
use std::alloc::{AllocError, Global};
use std::marker::Model;
use term_store::Rows;

/// Points, each with its arguments, which are earlier points.
#[derive(Drop)]
pub struct Graph {
    rows: Rows<Shape>,
}

impl Model for Graph {
    ghost use Rattle.std.specs.Prelude.{List};
    ghost use Rattle.point_closure.specs.Closure.{Point, ArePoints};
    ghost use Rattle.point_closure.specs.PointsCode.{points_code};

    ghost Value = { List Point };

    ghost coded = { points_code };

    ghost use Rattle.point_closure.specs.Kept.{points_of};

    ghost view = { λ g. points_of g.rows };

    ghost invariant = { λ g. ArePoints (points_of g.rows) };
}

impl Graph {
    /// No point. It takes no memory.
    pub fn new(alloc: Global) -> Self
        ensures { result ≡ [] }
    {
        Graph {
            rows: Rows::new(alloc),
        }
    }

    /// The number of points.
    pub fn len(&self) -> usize
        ensures value { result ≡ length self.now }
        ensures earlier { ArePoints self.now }
    {
        self.rows.len()
    }

    /// What stands at the head of a point.
    pub fn shape(&self, point: u32) -> Shape
        requires { point < length self.now }
        ensures { result ≡ (point_at self.now point).shape }
    {
        self.rows.head(point as usize)
    }

    /// The points of a point's arguments.
    pub fn arguments(&self, point: u32) -> &[u32]
        requires { point < length self.now }
        ensures value { result.now ≡ (point_at self.now point).arguments }
        ensures earlier { All (λ i. i < point) result.now }
    {
        self.rows.numbers(point as usize)
    }

    /// Adds a point. An `Err` changes nothing.
    pub fn add(&mut self, shape: Shape, arguments: &[u32]) -> Result<(), AllocError>
        requires { All (λ i. i < length self.old) arguments.now }
        ensures ok { OnOk result (self.new ≡ self.old ++ record { shape = shape; arguments = arguments.now } ∷ []) }
        ensures err { OnErr result (self.new ≡ self.old) }
    {
        self.rows.push(shape, arguments)?;
        Ok(())
    }

    /// Takes the points from this number on away.
    pub fn shorten(&mut self, count: usize)
        ensures { self.new ≡ take count self.old }
    {
        self.rows.truncate(count);
    }
}
