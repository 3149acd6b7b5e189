// A caller of the route, as its page shows it. It is proved with the tests.
ghost use Rattle.std.specs.Prelude.{◌≡◌, IfOk};
ghost use Rattle.base_core.specs.Lists.{Has};
ghost use Rattle.place_core.specs.declared.shards.Locator.{Locator};
ghost use Rattle.place_core.specs.Places.{HasKey, located};

use crate::Route;
use base_core::Want;
use place_core::PlaceState;
use row_core::Index;
use std::alloc::Global;

/// The number of the shard that has the key: the route's, or else the place's, which the route then knows too.
pub fn find(
    alloc: Global,
    route: &mut Route,
    place: &mut PlaceState,
    index: Index,
    key: &[u8],
) -> Result<u32, Want>
    requires board { route.old.note.board ≡ place.old.list.noted.board }
    ensures held { IfOk result (λ number. (l : Locator) × Has route.new.locators l × HasKey (located l) index key.now × (l.number ≡ number)) }
{
    if let Some(known) = route.known(index, key) {
        return Ok(known.number);
    }
    place.meet(route.know());
    let locator = place.locate(alloc, index, key)?;
    let number = locator.number;
    route.learn(locator)?;
    Ok(number)
}
