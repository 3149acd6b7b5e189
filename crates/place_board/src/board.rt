ghost use Rattle.std.specs.Prelude.{◌≡◌, ◌+◌, ◌<◌, ◌≤◌, ◌⊎◌, true, []};
ghost use Rattle.base_core.specs.Lists.{Has};
ghost use Rattle.place_board.specs.Words.{IsOf, count_word};
ghost use Rattle.place_board.specs.Views.{IsServing, IsListing, IsNoting, told, releases, released, seats_one, seated, joined};
ghost use Rattle.place_board.specs.Steps.{Bears, Agrees, Enlists, Retires, Watches, GivesUp, Posts};

use crate::law::{
    Agree, Bear, Enlist, GiveUp, Law, Meet, Post, Release, Retire, Seating, Tell, Watch,
};
use crate::told::Told;
use crate::view::View;
use atomic_table::{Seat, Table};
use fed_bytes::Span;
use std::alloc::Global;
use std::marker::Model;

/// The words of a board, under its rule. A contract sees which board it is.
#[derive(Drop)]
pub struct PlaceBoard {
    pub(crate) table: Table<u8, View, u8, Law, Global>,
}

impl Model for PlaceBoard {
    ghost use Rattle.std.specs.Prelude.{◌≡◌};
    ghost use Rattle.atomic_table.specs.Seated.{TableId, table_id_coded};

    ghost Value = { TableId };

    ghost coded = { table_id_coded };

    ghost view = { λ b. b.table.shared.table_id };

    ghost invariant = { λ b. b.table.shared.table_id.words ≡ 32784 };
}

// What a thread steps with.
pub(crate) type Place = Seat<u8, View>;

// The steps, each one operation on one word.
impl PlaceBoard {
    pub(crate) fn agree(&self, seat: &mut Place)
        requires board { seat.old.table_id ≡ self.now }
        requires seat { (seat.old.me.1 ≡ []) × (seat.old.me.0.live ≡ true) }
        ensures board { seat.new.table_id ≡ self.now }
        ensures agrees { Agrees seat.old.me seat.new.me }
    {
        self.table.shared.load::<Agree>(seat, 0);
    }

    pub(crate) fn bear<B: Told>(&self, seat: &mut Place, number: u32, index: u8, span: &Span)
        requires board { seat.old.table_id ≡ self.now }
        requires seat { (seat.old.me.1 ≡ []) × IsServing seat.old.me.0 }
        requires told { B.known ≡ record { number = number; service = seat.old.me.0.service; index = index; span = span.now } }
        requires next { (number ≡ seat.old.me.0.next) × (number < 32768) × IsOf seat.old.me.0.service number }
        ensures board { seat.new.table_id ≡ self.now }
        ensures bears { Bears (record { number = number; service = seat.old.me.0.service; index = index; span = span.now }) seat.old.me seat.new.me }
    {
        self.table.shared.store::<Bear<B>>(seat, number as usize, 1);
    }

    pub(crate) fn enlist(&self, seat: &mut Place, number: u32)
        requires board { seat.old.table_id ≡ self.now }
        requires seat { (seat.old.me.1 ≡ []) × IsListing seat.old.me.0 }
        requires fresh { Has seat.old.me.0.fresh number × (number < 32768) }
        ensures board { seat.new.table_id ≡ self.now }
        ensures enlists { Enlists number seat.old.me seat.new.me }
    {
        self.table.shared.load::<Enlist>(seat, number as usize);
    }

    pub(crate) fn retire(&self, seat: &mut Place, number: u32)
        requires board { seat.old.table_id ≡ self.now }
        requires seat { (seat.old.me.1 ≡ []) × IsListing seat.old.me.0 }
        requires listed { Has seat.old.me.0.listed number × (number < 32768) }
        ensures board { seat.new.table_id ≡ self.now }
        ensures retires { Retires number seat.old.me seat.new.me }
    {
        self.table.shared.store::<Retire>(seat, number as usize, 2);
    }

    pub(crate) fn watch(&self, seat: &mut Place, number: u32) -> u64
        requires board { seat.old.table_id ≡ self.now }
        requires seat { (seat.old.me.1 ≡ []) × IsServing seat.old.me.0 }
        requires borne { IsOf seat.old.me.0.service number × (number < seat.old.me.0.next) × (number < 32768) }
        ensures board { seat.new.table_id ≡ self.now }
        ensures watches { Watches number seat.old.me result seat.new.me }
    {
        self.table.shared.load::<Watch>(seat, number as usize)
    }

    pub(crate) fn give_up(&self, seat: &mut Place, number: u32)
        requires board { seat.old.table_id ≡ self.now }
        requires seat { (seat.old.me.1 ≡ []) × IsServing seat.old.me.0 }
        requires dead { Has seat.old.me.0.dead number × (number < 32768) }
        ensures board { seat.new.table_id ≡ self.now }
        ensures gives_up { GivesUp number seat.old.me seat.new.me }
    {
        self.table.shared.load::<GiveUp>(seat, number as usize);
    }

    pub(crate) fn post(&self, seat: &mut Place, service: u32, count: u64)
        requires board { seat.old.table_id ≡ self.now }
        requires seat { (seat.old.me.1 ≡ []) × IsServing seat.old.me.0 }
        requires service { (service ≡ seat.old.me.0.service) × (service ≤ 16) }
        requires rises { seat.old.me.0.posted ≤ count }
        ensures board { seat.new.table_id ≡ self.now }
        ensures posts { Posts count seat.old.me seat.new.me }
    {
        self.table
            .shared
            .swap::<Post>(seat, count_place(service), count);
    }

    pub(crate) fn tell(&self, seat: &mut Place) -> Place
        requires board { seat.old.table_id ≡ self.now }
        requires seat { seat.old.me.0.live ≡ true }
        ensures board { (seat.new.table_id ≡ self.now) × (result.table_id ≡ self.now) }
        ensures same { seat.new.me ≡ seat.old.me }
        ensures told { result.me ≡ (told seat.old.me.0, []) }
    {
        self.table.shared.split_seat::<Tell>(seat)
    }

    pub(crate) fn release<B: Told>(&self, seat: &mut Place, number: u32) -> Place
        requires board { seat.old.table_id ≡ self.now }
        requires seat { seat.old.me.0.live ≡ true }
        requires told { B.known.number ≡ number }
        requires fresh { Has seat.old.me.0.fresh number }
        ensures board { (seat.new.table_id ≡ self.now) × (result.table_id ≡ self.now) }
        ensures releases { seat.new.me ≡ (releases number seat.old.me.0, seat.old.me.1) }
        ensures released { result.me ≡ (released number seat.old.me.0, []) }
    {
        self.table.shared.split_seat::<Release<B>>(seat)
    }

    pub(crate) fn seat_one(&self, seat: &mut Place) -> Place
        requires board { seat.old.table_id ≡ self.now }
        requires seat { IsListing seat.old.me.0 }
        requires room { seat.old.me.0.services < 16 }
        ensures board { (seat.new.table_id ≡ self.now) × (result.table_id ≡ self.now) }
        ensures seats_one { seat.new.me ≡ (seats_one seat.old.me.0, seat.old.me.1) }
        ensures seated { result.me ≡ (seated seat.old.me.0, []) }
    {
        self.table.shared.split_seat::<Seating>(seat)
    }

    pub(crate) fn join(&self, seat: &mut Place, other: Place)
        requires boards { (seat.old.table_id ≡ self.now) × (other.table_id ≡ self.now) }
        requires seat { seat.old.me.0.live ≡ true }
        requires other { (other.me.1 ≡ []) × IsNoting other.me.0 }
        ensures board { seat.new.table_id ≡ self.now }
        ensures joined { seat.new.me ≡ (joined seat.old.me.0 other.me.0, seat.old.me.1) }
    {
        self.table.shared.join_seat::<Meet>(seat, other);
    }
}

// Where the count of faults of this service stands.
fn count_place(service: u32) -> usize
    requires { service ≤ 16 }
    ensures { result ≡ count_word service }
{
    32_767 + service as usize
}
