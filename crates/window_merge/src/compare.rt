//! How keys are compared.
ghost use Rattle.std.specs.Prelude.{◌≡◌, ◌↔◌, IsTrue};
ghost use Rattle.std.specs.Ordering.{is_lt, is_le, nat_cmp};
ghost use Rattle.std.specs.Cmp.Lexicographic.{slice_cmp};

pub(crate) fn is_same(one: &[u8], other: &[u8]) -> bool
    ensures { IsTrue result ↔ (one.now ≡ other.now) }
{
    one == other
}

pub(crate) fn is_before(one: &[u8], other: &[u8]) -> bool
    ensures { result ≡ is_lt (slice_cmp nat_cmp one.now other.now) }
{
    one.cmp(other).is_lt()
}

pub(crate) fn is_up_to(one: &[u8], other: &[u8]) -> bool
    ensures { result ≡ is_le (slice_cmp nat_cmp one.now other.now) }
{
    one.cmp(other).is_le()
}
