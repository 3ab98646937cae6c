//! A watched pair of points: a step keeps them apart.

/// A watched pair of points.
#[derive(Clone, Copy, Drop)]
pub struct Watch {
    pub left: u32,
    pub right: u32,
    /// The step that keeps them apart.
    pub step: u32,
}
