// A caller of the board, as its page shows it. It is proved with the tests.
ghost use Rattle.std.specs.Prelude.{◌≡◌, IfOk};
ghost use Rattle.base_core.specs.Lists.{Has};
ghost use Rattle.place_board.specs.declared.fault.Look.TheVariants.{Retired};

use crate::{ListSeat, Look, PlaceFault, ServiceSeat};
use fed_bytes::Span;

/// The life of one number: it is born, listed and retired, its service finds it retired, and lets it go.
pub fn live_and_retire(
    list: &mut ListSeat,
    service: &mut ServiceSeat,
    index: u8,
    span: &Span,
) -> Result<(u32, Look), PlaceFault>
    requires board { list.old.noted.board ≡ service.old.noted.board }
    ensures found { IfOk result (λ r. r.1 ≡ Retired) }
    ensures once { IfOk result (λ r. Has list.new.ever r.0 × ¬ Has list.new.listed r.0) }
    ensures gone { IfOk result (λ r. ¬ Has service.new.mine r.0) }
{
    let (number, note) = service.birth(index, span)?;
    list.list(number, note);
    list.retire(number);
    service.meet(list.know());
    let found = service.look(number);
    service.drop_retired(number);
    Ok((number, found))
}
