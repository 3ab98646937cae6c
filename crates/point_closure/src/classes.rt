//! Points in classes, as a list of unions.
ghost use Rattle.std.specs.Prelude.{◌≡◌, ◌≢◌, ◌+◌, ◌-◌, ◌^◌, ◌<◌, ◌≤◌, [], ◌∷◌, ◌++◌, length, take, slice_index_or, OnOk, OnErr, MatchOption};
ghost use Rattle.point_closure.specs.Unions.{root_of, IsUnion, AreUnions, IsNewest, TakesLast};

use std::alloc::{AllocError, Global};
use std::marker::Model;

/// Why two points are equal.
#[derive(Clone, Copy, PartialEq, Eq, Drop)]
pub enum Reason {
    /// They are applications of one symbol to equal arguments.
    Alike,
    /// They were merged at this step.
    Step(u32),
}

/// The class of `from`, with the root `gone`, joined the class of `to`, with the root `kept`.
#[derive(Clone, Copy, Drop)]
pub struct Union {
    pub gone: u32,
    pub kept: u32,
    pub from: u32,
    pub to: u32,
    pub reason: Reason,
}

/// No union, and no slot.
pub const NONE: u32 = u32::MAX;

/// The union that first put two points into one class, and whether its `to` stands on the first point's side.
#[derive(Clone, Copy, Drop)]
pub struct Newest {
    pub union: u32,
    pub turned: bool,
}

/// Where a point stands in its class's tree: the point above it and the number of the union that put it there, or itself and `NONE` at the root.
#[derive(Clone, Copy, Drop)]
pub struct Link {
    up: u32,
    edge: u32,
}

/// Classes of points.
#[derive(Drop)]
pub struct Classes {
    links: Vec<Link>,
    unions: Vec<Union>,
}

impl Model for Classes {
    ghost use Rattle.point_closure.specs.Unions.{Joined};
    ghost use Rattle.point_closure.specs.UnionsCode.{joined_code};

    ghost Value = { Joined };

    ghost coded = { joined_code };

    ghost use Rattle.std.specs.Prelude.{length};
    ghost use Rattle.point_closure.specs.Links.{AreLinks};

    ghost view = { λ c. record { count = length c.links.items; unions = c.unions.items } };

    ghost invariant = { λ c. AreLinks c.unions.items c.links.items };
}

impl Classes {
    /// No point. It takes no memory.
    pub fn new(alloc: Global) -> Self
        ensures { result ≡ record { count = 0; unions = [] } }
    {
        Classes {
            links: Vec::new(alloc),
            unions: Vec::new(alloc),
        }
    }

    /// The number of points.
    pub fn len(&self) -> usize
        ensures { result ≡ self.now.count }
    {
        self.links.len()
    }

    /// The number of unions.
    pub fn unions(&self) -> usize
        ensures value { result ≡ length self.now.unions }
        ensures few { length self.now.unions < 2 ^ 32 }
        ensures each { AreUnions self.now.count self.now.unions }
    {
        self.unions.len()
    }

    pub fn union_at(&self, index: usize) -> Union
        requires { index < length self.now.unions }
        ensures value { result ≡ slice_index_or self.now.unions index result }
        ensures joins { IsUnion self.now.count (take index self.now.unions) result }
    {
        self.unions[index]
    }

    /// The root of a point's class.
    pub fn class_of(&self, point: u32) -> u32
        requires { point < self.now.count }
        ensures within { result < self.now.count }
        ensures value { result ≡ root_of self.now.unions point }
    {
        let mut at = point;
        'walk: loop {
            let link = self.links[at as usize];
            if link.edge == NONE {
                return at;
            }
            at = link.up;
        }
    }

    /// Adds a point that is alone. An `Err` changes nothing.
    pub fn add(&mut self) -> Result<(), AllocError>
        requires { self.old.count < 2 ^ 32 - 1 }
        ensures ok { OnOk result (self.new ≡ record { count = self.old.count + 1; unions = self.old.unions }) }
        ensures err { OnErr result (self.new ≡ self.old) }
    {
        let point = self.links.len() as u32;
        self.links.push(Link {
            up: point,
            edge: NONE,
        })?;
        Ok(())
    }

    /// Takes away all points from this number on, which are alone.
    pub fn shorten(&mut self, count: usize)
        requires alone { AreUnions count self.old.unions }
        requires within { count ≤ self.old.count }
        ensures { self.new ≡ record { count = count; unions = self.old.unions } }
    {
        self.links.truncate(count);
    }

    /// Joins two classes. An `Err` changes nothing.
    pub fn join(&mut self, union: Union) -> Result<(), AllocError>
        requires { IsUnion self.old.count self.old.unions union }
        ensures ok { OnOk result (self.new ≡ record { count = self.old.count; unions = self.old.unions ++ union ∷ [] }) }
        ensures err { OnErr result (self.new ≡ self.old) }
    {
        let edge = self.unions.len();
        if edge >= (NONE - 1) as usize {
            return Err(AllocError);
        }
        self.unions.push(union)?;
        self.links[union.gone as usize] = Link {
            up: union.kept,
            edge: edge as u32,
        };
        Ok(())
    }

    /// Takes the last union back.
    pub fn part(&mut self) -> Option<Union>
        ensures { TakesLast self.old self.new result }
    {
        let union = self.unions.pop()?;
        self.links[union.gone as usize] = Link {
            up: union.gone,
            edge: NONE,
        };
        Some(union)
    }

    /// The union that first put two different points of one class into one.
    pub fn newest(&self, left: u32, right: u32) -> Newest
        requires left_within { left < self.now.count }
        requires right_within { right < self.now.count }
        requires different { left ≢ right }
        requires same { root_of self.now.unions left ≡ root_of self.now.unions right }
        ensures { IsNewest self.now.unions left right result }
    {
        let mut one = left;
        let mut other = right;
        'walk: loop {
            let link = self.links[one as usize];
            let opposite = self.links[other as usize];
            if link.edge < opposite.edge {
                one = link.up;
                if one == other {
                    return Newest {
                        union: link.edge,
                        turned: false,
                    };
                }
            } else {
                other = opposite.up;
                if one == other {
                    return Newest {
                        union: opposite.edge,
                        turned: true,
                    };
                }
            }
        }
    }
}
