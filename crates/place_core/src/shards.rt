//! The shards that an index is made of: those that a service just bore, and those that a place lists.
ghost use Rattle.std.specs.Prelude.{◌≡◌};
ghost use Rattle.place_core.specs.Shown.{place_of};

use fed_bytes::Span;
use place_board::PlaceNote;
use row_core::Index;

/// A shard that a service bore. Its note has the number fresh until the place lists it.
#[derive(Drop)]
pub struct Born {
    pub number: u32,
    pub service: u32,
    pub index: Index,
    pub span: Span,
    pub note: PlaceNote,
}

/// Where the keys of a span are: the number of the shard that has them, and its service.
#[derive(Drop)]
pub struct Locator {
    pub number: u32,
    pub service: u32,
    pub index: Index,
    pub span: Span,
    pub note: PlaceNote,
}

/// A shard that a place lists.
#[derive(Drop)]
pub struct Line {
    pub number: u32,
    pub service: u32,
    pub index: Index,
    pub span: Span,
}

/// The place of an index among all, by which the place board knows it.
pub fn index_place(index: Index) -> u8
    ensures { result ≡ place_of index }
{
    match index {
        Index::T2i => 0,
        Index::I2t => 1,
        Index::Spo => 2,
        Index::Pos => 3,
        Index::Osp => 4,
    }
}
