//! A key that contracts see as its bytes.
ghost use Rattle.std.specs.Prelude.{◌≡◌, IfOk, nat_eq, refl};
ghost use Rattle.std.specs.Ordering.{nat_cmp, as_partial_cmp};
ghost use Rattle.std.specs.Cmp.{partial_equiv_from_equiv};
ghost use Rattle.std.specs.Cmp.Lexicographic.{pointwise, slice_cmp, nat_list_eq_equiv, nat_list_cmp_total, texts_po, texts_ties};

use base_core::Want;
use smallvec::SmallVec;
use std::alloc::Global;
use std::cmp::Ordering;
use std::marker::Model;

/// How many bytes of a key stand inside of the value: those of three ids. Longer keys stand on the heap.
const INLINE: usize = 24;

/// A key. Keys are ordered by their bytes, and a key stands before those that it begins.
#[derive(Debug, Drop)]
pub struct Key {
    inner: SmallVec<u8, INLINE>,
}

impl Model for Key {
    ghost use Rattle.std.specs.Prelude.{List, ℕ};

    ghost Value = { List ℕ };

    ghost view = { λ key. key.inner.items };
}

impl Key {
    /// A key of these bytes.
    pub fn of(alloc: Global, bytes: &[u8]) -> Result<Key, Want>
        ensures { IfOk result (λ made. made ≡ bytes.now) }
    {
        let inner = SmallVec::from_slice(alloc, bytes)?;
        Ok(Key { inner })
    }

    /// A key that takes these bytes over.
    pub fn from_bytes(bytes: Vec<u8>) -> Key
        ensures { result ≡ bytes.items }
    {
        Key {
            inner: SmallVec::from_vec(bytes),
        }
    }

    pub fn bytes(&self) -> &[u8]
        ensures { result.now ≡ self.now }
    {
        self.inner.as_slice()
    }

    /// A copy of this key.
    pub fn copy(&self, alloc: Global) -> Result<Key, Want>
        ensures { IfOk result (λ made. made ≡ self.now) }
    {
        Key::of(alloc, self.bytes())
    }
}

impl PartialEq for Key {
    ghost eq = { pointwise nat_eq };

    ghost laws = { partial_equiv_from_equiv nat_list_eq_equiv };

    fn eq(&self, other: &Key) -> bool {
        self.bytes() == other.bytes()
    }
}

impl Eq for Key {
    ghost laws = { nat_list_eq_equiv };
}

impl PartialOrd for Key {
    ghost partial_cmp = { as_partial_cmp (slice_cmp nat_cmp) };

    ghost laws = { texts_po };

    fn partial_cmp(&self, other: &Key) -> Option<Ordering> {
        Some(self.cmp(other))
    }
}

impl Ord for Key {
    ghost cmp = { slice_cmp nat_cmp };

    ghost total = { nat_list_cmp_total };

    ghost matches_partial_cmp = { λ _ _. refl };

    ghost matches_eq = { texts_ties };

    fn cmp(&self, other: &Key) -> Ordering {
        self.bytes().cmp(other.bytes())
    }
}
