//! Text that is being written behind what stands already, and that is cut off again where writing fails.
ghost use Rattle.std.specs.Prelude.{◌≡◌, [], ◌∷◌, ◌++◌, OnOk};

use base_core::Want;
use std::marker::Model;

/// What is kept in any case, and the text behind it. A part of a piece may stand there after a want of memory.
#[derive(Debug, Drop)]
pub struct Draft {
    bytes: Vec<u8>,
    kept: usize,
}

impl Model for Draft {
    ghost use Rattle.std.specs.Prelude.{◌≤◌, length, take, drop};
    ghost use Rattle.bgp_model.specs.Draft.{Drafted};

    ghost Value = { Drafted };

    ghost view = { λ draft. record { kept = take draft.kept draft.bytes.items; text = drop draft.kept draft.bytes.items } };

    ghost invariant = { λ draft. draft.kept ≤ length draft.bytes.items };
}

impl Draft {
    /// Begins behind these bytes.
    pub fn behind(bytes: Vec<u8>) -> Draft
        ensures kept { result.kept ≡ bytes.items }
        ensures text { result.text ≡ [] }
    {
        let kept = bytes.len();
        Draft { bytes, kept }
    }

    pub fn append(&mut self, bytes: &[u8]) -> Result<(), Want>
        ensures text { OnOk result (self.new.text ≡ self.old.text ++ bytes.now) }
        ensures kept { self.new.kept ≡ self.old.kept }
    {
        self.bytes.extend_from_slice(bytes)?;
        Ok(())
    }

    pub fn push(&mut self, byte: u8) -> Result<(), Want>
        ensures text { OnOk result (self.new.text ≡ self.old.text ++ byte ∷ []) }
        ensures kept { self.new.kept ≡ self.old.kept }
    {
        self.bytes.push(byte)?;
        Ok(())
    }

    /// What is kept, and the text behind it.
    pub fn whole(self) -> Vec<u8>
        ensures { result.items ≡ self.kept ++ self.text }
    {
        let Draft { bytes, kept: _ } = self;
        bytes
    }

    /// What is kept, without the text.
    pub fn cut_back(self) -> Vec<u8>
        ensures { result.items ≡ self.kept }
    {
        let Draft { mut bytes, kept } = self;
        bytes.truncate(kept);
        bytes
    }
}
