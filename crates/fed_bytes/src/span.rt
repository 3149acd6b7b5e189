//! Half open spans of keys.
ghost use Rattle.std.specs.Prelude.{◌≡◌, ◌↔◌, ℕ, List, IsTrue, false, IfOk, IfSome, MatchOption};
ghost use Rattle.std.specs.Ordering.{is_lt, is_le, nat_cmp};
ghost use Rattle.std.specs.Cmp.Lexicographic.{slice_cmp};
ghost use Rattle.fed_bytes.specs.Keys.{IsIn, IsBeforeEnd, AreApart, IsMeeting, IsPrefixSpan, IsKeySpan};
ghost use Rattle.fed_bytes.specs.Ends.{later, earlier_end, end_of, EndsWithoutFf};

use crate::key::Key;
use base_core::Want;
use std::alloc::Global;

/// The keys from `left` on, and before `right` where there is one.
#[derive(Debug, Drop)]
pub struct Span {
    pub left: Key,
    pub right: Option<Key>,
}

impl Span {
    pub fn contains(&self, key: &[u8]) -> bool
        ensures { IsTrue result ↔ IsIn self.now key.now }
    {
        is_up_to(self.left.bytes(), key) && is_before_end(key, &self.right)
    }

    /// The span of the keys that are in both, where there is such a key.
    pub fn meet(&self, alloc: Global, other: &Span) -> Result<Option<Span>, Want>
        ensures none { IfOk result (λ made. MatchOption made (AreApart self.now other.now) (λ both. IsIn both both.left)) }
        ensures some { IfOk result (λ made. IfSome made (λ both. IsMeeting self.now other.now both)) }
    {
        let left = later_of(&self.left, &other.left);
        let right = earlier_of(&self.right, &other.right);
        if !is_before_end(left.bytes(), right) {
            return Ok(None);
        }
        let left = left.copy(alloc)?;
        let right = copy_end(alloc, right)?;
        Ok(Some(Span { left, right }))
    }

    /// Whether some key is in both.
    pub fn overlaps(&self, other: &Span) -> bool
        ensures shared { IsTrue result → (key : List ℕ) × IsIn self.now key × IsIn other.now key }
        ensures apart { result ≡ false → AreApart self.now other.now }
    {
        let left = later_of(&self.left, &other.left);
        let end = earlier_of(&self.right, &other.right);
        is_before_end(left.bytes(), end)
    }

    /// The span of the keys that begin with these bytes.
    pub fn of_prefix(alloc: Global, prefix: &[u8]) -> Result<Span, Want>
        ensures keys { IfOk result (λ span. IsPrefixSpan prefix.now span) }
        ensures left { IfOk result (λ span. span.left ≡ prefix.now) }
        ensures own { IfOk result (λ span. IsIn span span.left) }
    {
        let left = Key::of(alloc, prefix)?;
        let right = prefix_end(alloc, without_last_ff(prefix))?;
        Ok(Span { left, right })
    }

    /// The span of one key: from it on, and before the key with a zero byte behind it.
    pub fn of_key(alloc: Global, key: &[u8]) -> Result<Span, Want>
        ensures only { IfOk result (λ span. IsKeySpan key.now span) }
        ensures left { IfOk result (λ span. span.left ≡ key.now) }
    {
        let left = Key::of(alloc, key)?;
        let mut end = Vec::new(alloc);
        end.extend_from_slice(key)?;
        end.push(0)?;
        Ok(Span {
            left,
            right: Some(Key::from_bytes(end)),
        })
    }
}

fn is_before(first: &[u8], second: &[u8]) -> bool
    ensures { result ≡ is_lt (slice_cmp nat_cmp first.now second.now) }
{
    first.cmp(second).is_lt()
}

fn is_up_to(first: &[u8], second: &[u8]) -> bool
    ensures { result ≡ is_le (slice_cmp nat_cmp first.now second.now) }
{
    first.cmp(second).is_le()
}

fn is_before_end(key: &[u8], right: &Option<Key>) -> bool
    ensures { IsTrue result ↔ IsBeforeEnd key.now right.now }
{
    match right {
        None => true,
        Some(right) => is_before(key, right.bytes()),
    }
}

/// The later of two left ends.
fn later_of<'a>(one: &'a Key, other: &'a Key) -> &'a Key
    ensures { result.now ≡ later one.now other.now }
{
    if is_up_to(one.bytes(), other.bytes()) {
        other
    } else {
        one
    }
}

/// The earlier of two right ends.
fn earlier_of<'a>(one: &'a Option<Key>, other: &'a Option<Key>) -> &'a Option<Key>
    ensures { result.now ≡ earlier_end one.now other.now }
{
    match (one, other) {
        (None, _) => other,
        (_, None) => one,
        (Some(first), Some(second)) => {
            if is_up_to(first.bytes(), second.bytes()) {
                one
            } else {
                other
            }
        }
    }
}

fn copy_end(alloc: Global, right: &Option<Key>) -> Result<Option<Key>, Want>
    ensures { IfOk result (λ made. made ≡ right.now) }
{
    match right {
        None => Ok(None),
        Some(right) => Ok(Some(right.copy(alloc)?)),
    }
}

/// The bytes without those of ff at their end.
fn without_last_ff(bytes: &[u8]) -> &[u8]
    ensures same { end_of result.now ≡ end_of bytes.now }
    ensures below { EndsWithoutFf result.now }
{
    let mut rest = bytes;
    'ends: while let Some(front) = rest.strip_suffix(&[0xff]) {
        rest = front;
    }
    rest
}

/// The end of the keys that begin with these bytes, whose last one is not ff: that byte one higher.
fn prefix_end(alloc: Global, prefix: &[u8]) -> Result<Option<Key>, Want>
    requires { EndsWithoutFf prefix.now }
    ensures { IfOk result (λ made. made ≡ end_of prefix.now) }
{
    let [front @ .., last] = prefix else {
        return Ok(None);
    };
    let mut end = Vec::new(alloc);
    end.extend_from_slice(front)?;
    end.push(*last + 1)?;
    Ok(Some(Key::from_bytes(end)))
}
