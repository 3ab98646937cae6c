//! The literals that a theory was told, each with the count of something that was there before it.
ghost use Rattle.std.specs.Prelude.{◌≡◌, ◌<◌, ◌++◌, ◌∷◌, [], length, slice_index_or, OnOk, OnErr};

use literals::Literal;
use std::alloc::AllocError;

/// Adds a literal, with the count before it. An `Err`, for want of memory, changes nothing.
pub fn push_told(
    log: &mut Vec<Literal>,
    starts: &mut Vec<usize>,
    literal: Literal,
    start: usize,
) -> Result<(), AllocError>
    ensures ok { OnOk result ((log.new.items ≡ log.old.items ++ literal ∷ []) × (starts.new.items ≡ starts.old.items ++ start ∷ [])) }
    ensures err { OnErr result ((log.new.items ≡ log.old.items) × (starts.new.items ≡ starts.old.items)) }
{
    starts.push(start)?;
    if log.push(literal).is_err() {
        let _ = starts.pop();
        return Err(AllocError);
    }
    Ok(())
}

/// The count before the literal at a place.
pub fn start_of(starts: &[usize], place: usize) -> usize
    requires { place < length starts.now }
    ensures { result ≡ slice_index_or starts.now place 0 }
{
    starts[place]
}
