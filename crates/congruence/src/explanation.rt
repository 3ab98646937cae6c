//! The reasons for an equality.
use literals::Literal;
use point_closure::Explainer;
use std::alloc::Global;

/// The lists of an explanation by reasons, which are kept from one to the next.
#[derive(Drop)]
pub struct Explanation {
    /// The reasons that were found last.
    pub reasons: Vec<Literal>,
    pub(crate) explainer: Explainer,
}

impl Explanation {
    /// Nothing is explained yet. It takes no memory.
    pub fn new(alloc: Global) -> Self {
        Explanation {
            reasons: Vec::new(alloc),
            explainer: Explainer::new(alloc),
        }
    }
}
