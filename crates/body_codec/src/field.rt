//! The fields that all bodies share.
ghost use Rattle.std.specs.Prelude.{◌≡◌, ◌≢◌, ◌<◌, ◌^◌, ◌++◌, length, IfSome, MatchOption};
ghost use Rattle.base_core.specs.Numbers.{length_bytes};
ghost use Rattle.change_model.specs.declared.history.Kind.{Kind as AnyKind};
ghost use Rattle.body_codec.specs.Body.{kind_byte};

use base_core::first_u32;
use change_model::Kind;

/// The byte of format 1.
pub(crate) const FORMAT: u8 = 1;

/// A body has at most so many statements.
pub(crate) const MOST_STATEMENTS: u32 = 100_000;

/// The terms of all statements of a body that is read are spelled in at most so many bytes together, a term once for each
/// time that a statement names it. No document gives a change with more.
pub(crate) const MOST_SPELLED: u64 = 38_254_432;

const ADD: u8 = 1;

const REMOVE: u8 = 2;

pub(crate) fn kind_byte(kind: Kind) -> u8
    ensures { result ≡ kind_byte kind }
{
    match kind {
        Kind::Add => ADD,
        Kind::Remove => REMOVE,
    }
}

/// The kind of this byte.
pub(crate) fn kind_of(byte: u8) -> Option<Kind>
    ensures { MatchOption result ((kind : AnyKind) → byte ≢ kind_byte kind) (λ kind. byte ≡ kind_byte kind) }
{
    match byte {
        ADD => Some(Kind::Add),
        REMOVE => Some(Kind::Remove),
        _ => None,
    }
}

/// A number of four bytes, and what is behind it.
#[derive(Clone, Copy)]
pub(crate) struct Number<'a> {
    pub(crate) value: u32,
    pub(crate) rest: &'a [u8],
}

/// The number that the bytes begin with. There is none where they are fewer than four.
pub(crate) fn number_in(bytes: &[u8]) -> Option<Number<'_>>
    ensures cases { MatchOption result (length bytes.now < 4) (λ found. bytes.now ≡ length_bytes found.value ++ found.rest.now) }
    ensures fits { IfSome result (λ found. found.value < 2 ^ 32) }
{
    let Some((value, rest)) = first_u32(bytes) else {
        return None;
    };
    Some(Number { value, rest })
}
