//! A record whose memory is taken.
ghost use Rattle.std.specs.Prelude.{◌≡◌, ◌<◌, ◌^◌, ◌∷◌, ◌++◌, [], length, IfOk};
ghost use Rattle.base_core.specs.Numbers.{length_bytes};

use crate::gates::CLOSED;
use base_core::{Want, put_u32};
use std::alloc::Global;
use std::marker::Model;

/// The bytes of a length and of a gate.
const FRAME_SIZE: usize = 5;

/// A record that is ready to be put. A contract sees its body.
#[derive(Drop)]
pub struct Prepared {
    // What stands behind the gate of the record: the length of the body, the body, and the next gate, closed.
    bytes: Vec<u8>,
}

impl Model for Prepared {
    ghost use Rattle.std.specs.Prelude.{ℕ, List};

    ghost Value = { List ℕ };

    ghost use Rattle.record_log.specs.Prepared.{body_in, IsClosedRecord};

    ghost view = { λ prepared. body_in prepared.bytes.items };

    ghost invariant = { λ prepared. IsClosedRecord prepared.bytes.items (body_in prepared.bytes.items) };
}

impl Prepared {
    /// The record of this body.
    pub(crate) fn of(alloc: Global, body: &[u8]) -> Result<Prepared, Want>
        requires { length body.now < 2 ^ 32 }
        ensures { IfOk result (λ made. made ≡ body.now) }
    {
        let bytes = record_of(alloc, body)?;
        Ok(Prepared { bytes })
    }

    /// How many bytes the body has.
    pub fn size(&self) -> u32
        ensures { result ≡ length self.now }
    {
        (self.bytes.len() - FRAME_SIZE) as u32
    }

    /// The length of the body, the body, and a closed gate.
    pub(crate) fn bytes(&self) -> &[u8]
        ensures are { result.now ≡ length_bytes (length self.now) ++ self.now ++ 0 ∷ [] }
        ensures short { length self.now < 2 ^ 32 }
    {
        self.bytes.as_slice()
    }
}

/// What stands behind the gate of a record. The memory is taken once.
fn record_of(alloc: Global, body: &[u8]) -> Result<Vec<u8>, Want>
    requires { length body.now < 2 ^ 32 }
    ensures { IfOk result (λ made. made.items ≡ length_bytes (length body.now) ++ body.now ++ 0 ∷ []) }
{
    let mut record = Vec::with_capacity(alloc, body.len() + FRAME_SIZE)?;
    put_u32(body.len() as u32, &mut record)?;
    record.extend_from_slice(body)?;
    record.push(CLOSED)?;
    Ok(record)
}
