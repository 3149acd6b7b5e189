// A session's note takes a turn at the keeper: for an entry that comes in, or for one of which the session is unsure.
ghost use Rattle.std.specs.Prelude.{◌≡◌, ◌+◌, ◌^◌, ◌<◌, ◌++◌, ◌∷◌, [], length};
ghost use Rattle.history_board.specs.Bearings.{placed, IsEnrolled};
ghost use Rattle.history_board.specs.Tokens.{IsSound};
ghost use Rattle.history_board.specs.declared.view.Bearing.{Bearing};
ghost use Rattle.commit_core.specs.Rooms.{session_of, command_of, BearsOrigin, MayComeIn};

use change_model::Committed;
use history_board::{Keeper, Made, Note};

/// The change comes in, and is its session's own.
pub fn enter(
    keeper: &mut Keeper<Committed>,
    seen: &mut Note<Committed>,
    committed: &Committed,
) -> u64
    requires board { seen.old.board ≡ keeper.old.board }
    requires room { length keeper.old.seen + 1 < 2 ^ 64 }
    requires one { BearsOrigin seen.old committed.now.origin }
    ensures length { result ≡ length keeper.new.seen }
    ensures is { keeper.new ≡ record keeper.old { seen = keeper.old.seen ++ committed.now ∷ []; floor_seen = keeper.new.floor_seen; count = keeper.new.count } }
    ensures own { (b : Bearing Committed) → seen.old.bears ≡ b ∷ [] → seen.new.bears ≡ record b { mine = b.mine ++ placed (length keeper.old.seen) committed.now ∷ [] } ∷ [] }
    ensures whole { seen.new.seen ≡ keeper.new.seen }
    ensures board { seen.new.board ≡ seen.old.board }
    ensures enrolled { IsEnrolled keeper.old.since committed.now.origin.session }
    ensures sound { IsSound session_of command_of keeper.new }
{
    keeper.take(seen);
    let length = keeper.commit(committed);
    keeper.hand(seen, committed.session(), None);
    length
}

/// The session is unsure of the change, which is in doubt.
pub fn doubt(keeper: &mut Keeper<Committed>, seen: &mut Note<Committed>, committed: &Committed)
    requires board { seen.old.board ≡ keeper.old.board }
    requires one { BearsOrigin seen.old committed.now.origin }
    ensures is { keeper.new ≡ record keeper.old { doubt = keeper.old.doubt ++ committed.now ∷ []; floor_seen = keeper.new.floor_seen; count = keeper.new.count } }
    ensures own { (b : Bearing Committed) → seen.old.bears ≡ b ∷ [] → seen.new.bears ≡ record b { unsure = b.unsure ++ committed.now ∷ [] } ∷ [] }
    ensures whole { seen.new.seen ≡ keeper.new.seen }
    ensures board { seen.new.board ≡ seen.old.board }
    ensures enrolled { IsEnrolled keeper.old.since committed.now.origin.session }
    ensures may { MayComeIn keeper.new.seen keeper.new.since keeper.new.doubt committed.now }
    ensures sound { IsSound session_of command_of keeper.new }
{
    keeper.take(seen);
    keeper.hand(seen, committed.session(), Some(committed));
}
