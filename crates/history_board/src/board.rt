ghost use Rattle.std.specs.Prelude.{◌≡◌, ◌+◌, ◌^◌, ◌<◌, ◌≤◌, ◌⊎◌, true, None, [], ◌∷◌, length, Contains, option_copied, option_to_list};
ghost use Rattle.history_board.specs.Views.{IsKeeping, IsNoting, IsPinning, told, joined, gives_pin, pinned, released, unburdened, bearer, enrols, enrolled, hands, handed};
ghost use Rattle.history_board.specs.Bearings.{since_of, Bears};
ghost use Rattle.history_board.specs.Pins.{IsFree};
ghost use Rattle.history_board.specs.Tokens.{kept_of, MayCommit};
ghost use Rattle.history_board.specs.Steps.{Looks, Commits, Posts};

use crate::law::{Commit, Enrol, GivePin, Hand, Law, Look, Meet, Post, TakePin, Tell, Unburden};
use crate::made::Made;
use crate::told::Told;
use crate::view::View;
use atomic_table::{Seat, Table};
use std::alloc::Global;
use std::marker::Model;

/// The three words of a board, under its rule. A contract sees which board it is.
#[derive(Drop)]
pub struct HistoryBoard<E: Made> {
    pub(crate) table: Table<u8, View<E>, u8, Law, Global>,
}

impl<E: Made> Model for HistoryBoard<E> {
    ghost use Rattle.std.specs.Prelude.{◌≡◌};
    ghost use Rattle.history_board.specs.Boards.{BoardId, board_id_coded};

    ghost Value = { BoardId };

    ghost coded = { board_id_coded };

    ghost view = { λ b. b.table.shared.table_id };

    ghost invariant = { λ b. b.table.shared.table_id.words ≡ 3 };
}

// What a thread steps with.
pub(crate) type Place<E> = Seat<u8, View<E>>;

// The steps, each one operation on one word.
impl<E: Made> HistoryBoard<E> {
    pub(crate) fn look(&self, seat: &mut Place<E>) -> u64
        requires board { seat.old.table_id ≡ self.now }
        requires seat { (seat.old.me.1 ≡ []) × (seat.old.me.0.live ≡ true) }
        ensures board { seat.new.table_id ≡ self.now }
        ensures looks { Looks E.session_of E.command_of seat.old.me result seat.new.me }
    {
        self.table.shared.load::<Look>(seat, 0)
    }

    pub(crate) fn append<B: Told<E>>(&self, seat: &mut Place<E>, entry: &E) -> u64
        requires board { seat.old.table_id ≡ self.now }
        requires seat { (seat.old.me.1 ≡ []) × IsKeeping seat.old.me.0 }
        requires told { B.entries ≡ entry.now ∷ [] }
        requires may { MayCommit E.session_of E.command_of (kept_of self.now seat.old.me.0) entry.now }
        requires room { length seat.old.me.0.seen + 1 < 2 ^ 64 }
        ensures board { seat.new.table_id ≡ self.now }
        ensures commits { Commits E.session_of E.command_of (entry.now ∷ []) seat.old.me result seat.new.me }
    {
        self.table.shared.fetch_add::<Commit<B>>(seat, 0, 1)
    }

    pub(crate) fn post(&self, seat: &mut Place<E>, count: u64) -> u64
        requires board { seat.old.table_id ≡ self.now }
        requires seat { (seat.old.me.1 ≡ []) × IsKeeping seat.old.me.0 }
        requires rises { seat.old.me.0.posted ≤ count }
        ensures board { seat.new.table_id ≡ self.now }
        ensures posts { Posts E.session_of E.command_of count seat.old.me result seat.new.me }
    {
        self.table.shared.swap::<Post>(seat, 2, count)
    }

    pub(crate) fn tell(&self, seat: &mut Place<E>) -> Place<E>
        requires board { seat.old.table_id ≡ self.now }
        requires seat { seat.old.me.0.live ≡ true }
        ensures board { (seat.new.table_id ≡ self.now) × (result.table_id ≡ self.now) }
        ensures same { seat.new.me ≡ seat.old.me }
        ensures told { result.me ≡ (told seat.old.me.0, []) }
    {
        self.table.shared.split_seat::<Tell>(seat)
    }

    pub(crate) fn join(&self, seat: &mut Place<E>, other: Place<E>)
        requires boards { (seat.old.table_id ≡ self.now) × (other.table_id ≡ self.now) }
        requires seat { seat.old.me.0.live ≡ true }
        requires other { (other.me.1 ≡ []) × IsNoting other.me.0 }
        requires free { seat.old.me.0.is_pin ≡ true → other.me.0.bears ≡ [] }
        ensures board { seat.new.table_id ≡ self.now }
        ensures joined { seat.new.me ≡ (joined seat.old.me.0 other.me.0, seat.old.me.1) }
    {
        self.table.shared.join_seat::<Meet>(seat, other);
    }

    pub(crate) fn give_pin<B: Told<E>>(
        &self,
        seat: &mut Place<E>,
        number: u64,
        time: u64,
    ) -> Place<E>
        requires board { seat.old.table_id ≡ self.now }
        requires seat { IsKeeping seat.old.me.0 }
        requires told { (B.number ≡ number) × (B.time ≡ time) }
        requires free { IsFree seat.old.me.0.out number }
        requires within { (seat.old.me.0.floor ≤ time) × (time ≤ length seat.old.me.0.seen) }
        ensures board { (seat.new.table_id ≡ self.now) × (result.table_id ≡ self.now) }
        ensures given { seat.new.me ≡ (gives_pin number time seat.old.me.0, seat.old.me.1) }
        ensures pinned { result.me ≡ (pinned number time seat.old.me.0, []) }
    {
        self.table.shared.split_seat::<GivePin<B>>(seat)
    }

    pub(crate) fn take_pin(&self, seat: &mut Place<E>, pin: Place<E>)
        requires boards { (seat.old.table_id ≡ self.now) × (pin.table_id ≡ self.now) }
        requires seat { IsKeeping seat.old.me.0 }
        requires pin { (pin.me.1 ≡ []) × IsPinning pin.me.0 }
        ensures board { seat.new.table_id ≡ self.now }
        ensures released { seat.new.me ≡ (released seat.old.me.0 pin.me.0, seat.old.me.1) }
    {
        self.table.shared.join_seat::<TakePin>(seat, pin);
    }

    pub(crate) fn unburden(&self, seat: &mut Place<E>) -> Place<E>
        requires board { seat.old.table_id ≡ self.now }
        requires seat { IsNoting seat.old.me.0 }
        ensures board { (seat.new.table_id ≡ self.now) × (result.table_id ≡ self.now) }
        ensures unburdened { seat.new.me ≡ (unburdened seat.old.me.0, seat.old.me.1) }
        ensures bearer { result.me ≡ (bearer seat.old.me.0, []) }
    {
        self.table.shared.split_seat::<Unburden>(seat)
    }

    pub(crate) fn enrol<B: Told<E>>(&self, seat: &mut Place<E>, session: u32) -> Place<E>
        requires board { seat.old.table_id ≡ self.now }
        requires seat { IsKeeping seat.old.me.0 }
        requires told { B.session ≡ session }
        requires from_one { 0 < session }
        requires may { (since_of seat.old.me.0.since session ≡ None) ⊎ Bears seat.old.me.0.bears session }
        ensures board { (seat.new.table_id ≡ self.now) × (result.table_id ≡ self.now) }
        ensures enrols { seat.new.me ≡ (enrols E.session_of session seat.old.me.0, seat.old.me.1) }
        ensures enrolled { result.me ≡ (enrolled session seat.old.me.0, []) }
    {
        self.table.shared.split_seat::<Enrol<B>>(seat)
    }

    pub(crate) fn hand<B: Told<E>>(
        &self,
        seat: &mut Place<E>,
        session: u32,
        unsure: Option<&E>,
    ) -> Place<E>
        requires board { seat.old.table_id ≡ self.now }
        requires seat { IsKeeping seat.old.me.0 }
        requires told { (B.session ≡ session) × (B.entries ≡ option_to_list (option_copied unsure)) }
        requires bears { Bears seat.old.me.0.bears session }
        requires entry { (e : E) → Contains (option_to_list (option_copied unsure)) e → E.session_of e ≡ session }
        ensures board { (seat.new.table_id ≡ self.now) × (result.table_id ≡ self.now) }
        ensures hands { seat.new.me ≡ (hands session (option_to_list (option_copied unsure.entry)) seat.old.me.0, seat.old.me.1) }
        ensures handed { result.me ≡ (handed session (option_to_list (option_copied unsure.entry)) seat.old.me.0, []) }
    {
        self.table.shared.split_seat::<Hand<B>>(seat)
    }
}
