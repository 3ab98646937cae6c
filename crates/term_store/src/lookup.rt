//! Finding by a name.
ghost use Rattle.std.specs.Prelude.{◌≡◌, None, IfSome, IfNone, bytes_eq};
ghost use Rattle.term_store.specs.Newest.{newest_named, name_hash, hashes_of, IsNewest};

use crate::{HashIndex, mix};

/// What has a name.
pub trait Named {
    ghost use Rattle.std.specs.Prelude.{◌≡◌, ℕ, List};

    ghost name: { Self → List ℕ };

    /// The name.
    fn name(&self) -> &[u8]
        ensures { result.now ≡ name self.now };
}

/// A name is its own.
impl<'a> Named for &'a [u8] {
    ghost name = { λ n. n.now };

    fn name(&self) -> &[u8] {
        *self
    }
}

/// The hash of a name. Equal names have equal hashes.
pub fn hash(name: &[u8]) -> u32
    ensures { result ≡ name_hash name.now }
{
    let mut state = 5;
    for byte in name {
        state = mix(state, *byte as u64);
    }
    (state >> 32) as u32
}

fn same_name(left: &[u8], right: &[u8]) -> bool
    ensures { result ≡ bytes_eq left.now right.now }
{
    left == right
}

/// The place of the last item of this name, where the items' hashes are filed in an index.
pub fn find<T: Named>(items: &[T], index: &HashIndex, name: &[u8]) -> Option<usize>
    requires { index.now ≡ hashes_of T.name items.now }
    ensures some { IfSome result (IsNewest T.name name.now items.now) }
    ensures none { IfNone result (newest_named T.name name.now items.now ≡ None) }
{
    let mut link = index.last(hash(name));
    while link > 0 {
        let place = (link - 1) as usize;
        if same_name(name, items[place].name()) {
            return Some(place);
        }
        link = index.before(place);
    }
    None
}
