//! The place: which shard has the keys of an index.
ghost use Rattle.std.specs.Prelude.{◌≡◌, ◌≤◌, ◌<◌, [], map, IfOk, OnOk, IfErr, OnErr};
ghost use Rattle.std.specs.Arc.{arc_value};
ghost use Rattle.base_core.specs.Lists.{Has};
ghost use Rattle.place_board.specs.Tokens.{copied, list_met, list_retired};
ghost use Rattle.place_core.specs.Places.{IsPlace, CoverEveryKeyOnce, HaveLeftEnds, AreCutOf, AreFresh, WereNeverListed, AreReplaced, AreCounts, IsLocated, IsRefusal, line_of, all_listed, AreAdded};

use crate::counts::counts_of;
use crate::fault::PlaceRefusal;
use crate::lines::{holder, list_all, place_of_old};
use crate::shards::{Born, Line, Locator};
use base_core::{List, Want};
use fed_bytes::Span;
use place_board::{ListSeat, PlaceBoard, PlaceNote};
use row_core::Index;
use std::alloc::{AllocError, Global};
use std::marker::Model;
use std::sync::Arc;

/// The listed shards of all indexes. Of each index each key is in one of them.
#[derive(Drop)]
pub struct PlaceState {
    seat: ListSeat,
    // By index, and by left end within an index.
    lines: Vec<Line>,
}

impl Model for PlaceState {
    ghost use Rattle.place_core.specs.Places.{Placing, IsPlace};

    ghost Value = { Placing };

    ghost view = { λ p. record { list = p.seat; lines = p.lines.items } };

    ghost invariant = { λ p. IsPlace (record { list = p.seat; lines = p.lines.items }) };
}

impl PlaceState {
    /// A place that lists these shards, with a seat that has listed none.
    pub fn make(alloc: Global, seat: ListSeat, born: List<Born>) -> Result<PlaceState, Want>
        requires new { seat.ever ≡ [] }
        requires cover { CoverEveryKeyOnce (map line_of born) }
        requires left { HaveLeftEnds (map line_of born) }
        requires fresh { AreFresh seat.noted born }
        ensures list { IfOk result (λ made. made.list ≡ all_listed born seat) }
        ensures lines { IfOk result (λ made. AreAdded born [] made.lines) }
        ensures place { IfOk result IsPlace }
    {
        seat.is_sound();
        let mut seat = seat;
        let born = born.into_items();
        let mut lines = Vec::new(alloc);
        lines.reserve(born.len())?;
        list_all(&mut seat, &mut lines, born);
        Ok(PlaceState { seat, lines })
    }

    /// The shard that has the key.
    pub fn locate(&mut self, alloc: Global, index: Index, key: &[u8]) -> Result<Locator, Want>
        ensures located { IfOk result (IsLocated self.old index key.now) }
        ensures note { IfOk result (λ l. l.note ≡ copied self.old.list.noted) }
        ensures same { self.new ≡ self.old }
    {
        let at = holder(self.lines.as_slice(), index, key);
        let line = &self.lines[at];
        let span = copy_span(alloc, &line.span)?;
        let (number, service) = (line.number, line.service);
        let note = self.seat.know();
        Ok(Locator {
            number,
            service,
            index,
            span,
            note,
        })
    }

    /// Lists the born shards, which make up the span of the old one, and retires that. Nothing is changed where it isn't
    /// listed any more.
    pub fn replace(&mut self, old: u32, born: List<Born>) -> Result<(), PlaceRefusal>
        requires once { Has self.old.list.ever old }
        requires cut { AreCutOf self.old.list.noted.knows old born }
        requires fresh { AreFresh self.old.list.noted born }
        ensures listed { OnOk result (Has self.old.list.listed old) }
        ensures first { OnOk result (WereNeverListed born self.old.list) }
        ensures list { OnOk result (self.new.list ≡ list_retired old (all_listed born self.old.list)) }
        ensures lines { OnOk result (AreReplaced old born self.old.lines self.new.lines) }
        ensures refusal { IfErr result (IsRefusal self.old old) }
        ensures same { OnErr result (self.new ≡ self.old) }
        ensures place { IsPlace self.new }
    {
        let born = born.into_items();
        let Some(at) = place_of_old(self.lines.as_slice(), old, born.as_slice()) else {
            return Err(PlaceRefusal::Moved { number: old });
        };
        self.lines.reserve(born.len())?;
        self.lines.remove(at);
        list_all(&mut self.seat, &mut self.lines, born);
        self.seat.retire(old);
        Ok(())
    }

    /// How many shards of each service are listed, from service 1 on.
    pub fn counts(&self, alloc: Global) -> Result<List<u32>, Want>
        ensures { IfOk result (AreCounts self.now.list.services self.now.lines) }
    {
        let services = self.seat.services();
        Ok(List::of(counts_of(alloc, self.lines.as_slice(), services)?))
    }

    /// Takes in what a note of the place's board knows.
    pub fn meet(&mut self, note: PlaceNote)
        requires { note.board ≡ self.old.list.noted.board }
        ensures met { self.new ≡ record self.old { list = list_met self.old.list note } }
        ensures place { IsPlace self.new }
    {
        self.seat.meet(note);
    }

    /// A note of all that the place's seat knows.
    pub fn know(&mut self) -> PlaceNote
        ensures note { result ≡ copied self.old.list.noted }
        ensures same { self.new ≡ self.old }
    {
        self.seat.know()
    }

    /// The place's board, for those who keep notes of it.
    pub fn share(&self) -> Result<Arc<PlaceBoard>, Want>
        ensures { IfOk result (λ b. arc_value b ≡ self.now.list.noted.board) }
    {
        self.seat.share()
    }

    /// For proofs: what is so of every place. It makes no step.
    pub fn is_place(&self)
        ensures { IsPlace self.now }
    {
        let _seat = &self.seat;
    }
}

fn copy_span(alloc: Global, span: &Span) -> Result<Span, Want>
    ensures { IfOk result (λ made. made ≡ span.now) }
{
    let left = span.left.copy(alloc)?;
    let right = match &span.right {
        None => None,
        Some(right) => Some(right.copy(alloc)?),
    };
    Ok(Span { left, right })
}
