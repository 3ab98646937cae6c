//! What stands above the stack at a check.
ghost use Rattle.std.specs.Prelude.{◌≡◌};
ghost use Rattle.session.specs.LastCheck.{assumptions_of};

use scope_stack::Assertion;
use smt_meaning::Seq;
use std::alloc::Global;

/// What stood above the stack at the last check: nothing, or a level that asserts the assumptions.
#[derive(Drop)]
pub enum Above {
    Nothing,
    Assumed(Seq<Assertion>),
}

/// The assumptions, none where nothing stood above the stack. It takes no memory.
pub(crate) fn into_assumptions(alloc: Global, above: Above) -> Seq<Assertion>
    ensures { result ≡ assumptions_of above }
{
    match above {
        Above::Nothing => Seq::new(alloc),
        Above::Assumed(assumptions) => assumptions,
    }
}
