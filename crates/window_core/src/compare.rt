//! How keys and places are compared.
ghost use Rattle.std.specs.Prelude.{◌≡◌, ◌↔◌, ◌<◌, length, IsTrue};
ghost use Rattle.std.specs.Ordering.{is_lt, nat_cmp};
ghost use Rattle.std.specs.Cmp.Lexicographic.{slice_cmp};
ghost use Rattle.window_core.specs.Packed.{row_at};
ghost use Rattle.window_core.specs.Runs.{reaches as is_reached};

use crate::packed::Packed;

pub(crate) fn is_same(one: &[u8], other: &[u8]) -> bool
    ensures { IsTrue result ↔ (one.now ≡ other.now) }
{
    one == other
}

pub(crate) fn is_before(one: &[u8], other: &[u8]) -> bool
    ensures { result ≡ is_lt (slice_cmp nat_cmp one.now other.now) }
{
    one.cmp(other).is_lt()
}

/// Whether the row stands at or behind the place of the key and the time.
pub(crate) fn reaches(rows: &Packed, index: usize, key: &[u8], time: u64) -> bool
    requires { index < length rows.now }
    ensures { result ≡ is_reached key.now time (row_at rows.now index) }
{
    key.cmp(rows.key_at(index))
        .then(rows.time_at(index).cmp(&time))
        .is_le()
}
