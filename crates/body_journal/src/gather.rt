//! The group that a flush stores, and its bytes.
ghost use Rattle.std.specs.Prelude.{◌≡◌, ◌+◌, ◌<◌, ◌≤◌, ◌^◌, ◌∷◌, ◌++◌, length, take, IfOk, MatchOption, OnOk, OnErr};
ghost use Rattle.std.specs.List.{flat_map};
ghost use Rattle.std.specs.Arc.{arc_value};
ghost use Rattle.base_core.specs.Numbers.{length_bytes};
ghost use Rattle.body_journal.specs.Groups.{body_field, group_size, IsFullest};
ghost use Rattle.body_journal.specs.Held.{others_in, grouped_in, fields_with};

use crate::held::{Held, Stage};
use base_core::{List, Want, put_u32};
use std::alloc::Global;

/// The body of a record has at most so many bytes.
const MOST_BYTES: u64 = 1_073_741_824;

/// The bytes of a count, and of a length.
const NUMBER_SIZE: u64 = 4;

/// A group that begins with one body.
#[derive(Clone, Copy)]
pub struct Gathered {
    /// How many others stand behind it.
    pub(crate) others: u64,
    /// How many bytes the body of its record has.
    pub(crate) size: u64,
}

/// The group of this body and of the others that wait, in order, for as long as they fit.
pub(crate) fn gather(held: &[Held], serial: u64, first: &[u8]) -> Gathered
    requires { length first.now ≤ 67108864 }
    ensures fullest { IsFullest first.now (others_in serial held.now) result.others }
    ensures size { result.size ≡ group_size (first.now ∷ take result.others (others_in serial held.now)) }
    ensures within { result.size ≤ 2 ^ 30 }
    ensures few { result.others < 2 ^ 30 }
{
    let mut group = Gathered {
        others: 0,
        size: NUMBER_SIZE + NUMBER_SIZE + first.len() as u64,
    };
    'held: for one in held {
        if !one.is_other(serial) {
            continue;
        }
        let Some(size) = size_with(group.size, one.body.items()) else {
            return group;
        };
        group = Gathered {
            others: group.others + 1,
            size,
        };
    }
    group
}

/// The size with one body more. There is none where that is too much.
fn size_with(size: u64, body: &[u8]) -> Option<u64>
    requires { size ≤ 2 ^ 30 }
    ensures cases { MatchOption result (2 ^ 30 < size + 4 + length body.now) (λ with_it. with_it ≡ size + 4 + length body.now) }
    ensures within { MatchOption result (2 ^ 30 < size + 4 + length body.now) (λ with_it. with_it ≤ 2 ^ 30) }
{
    let Some(most) = (MOST_BYTES - size).checked_sub(NUMBER_SIZE) else {
        return None;
    };
    let length = body.len() as u64;
    if most < length {
        return None;
    }
    Some(size + NUMBER_SIZE + length)
}

/// The bytes of the group that begins with this body, and whose others are marked.
pub(crate) fn record_of(
    alloc: Global,
    held: &[Held],
    first: &[u8],
    group: Gathered,
) -> Result<Vec<u8>, Want>
    requires few { group.others < 2 ^ 30 }
    requires short { length first.now ≤ 67108864 }
    ensures { IfOk result (λ made. made.items ≡ length_bytes (group.others + 1) ++ body_field first.now ++ flat_map body_field (grouped_in held.now)) }
{
    let mut record = Vec::with_capacity(alloc, group.size as usize)?;
    put_u32((group.others + 1) as u32, &mut record)?;
    put_body(first, &mut record)?;
    put_others(held, &mut record)?;
    Ok(record)
}

/// Appends the fields of the bodies that are marked.
fn put_others(held: &[Held], out: &mut Vec<u8>) -> Result<(), Want>
    ensures { OnOk result (out.new.items ≡ out.old.items ++ flat_map body_field (grouped_in held.now)) }
{
    'held: for one in held {
        put_marked(one, out)?;
    }
    Ok(())
}

/// Appends the field of this body, if it is marked.
fn put_marked(one: &Held, out: &mut Vec<u8>) -> Result<(), Want>
    ensures { OnOk result (out.new.items ≡ fields_with out.old.items one.now) }
{
    match one.stage {
        Stage::InGroup { .. } => put_body(one.body.items(), out),
        Stage::Waiting | Stage::Stored { .. } => Ok(()),
    }
}

/// Appends the length of a body, and the body.
fn put_body(body: &[u8], out: &mut Vec<u8>) -> Result<(), Want>
    ensures { OnOk result (out.new.items ≡ out.old.items ++ body_field body.now) }
{
    let Ok(length) = u32::try_from(body.len()) else {
        return Err(Want::NoMemory);
    };
    put_u32(length, out)?;
    out.extend_from_slice(body)?;
    Ok(())
}
