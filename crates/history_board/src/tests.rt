ghost use Rattle.std.specs.Prelude.{◌≡◌};

use crate::caller::commit_as;
use crate::{Keeper, Made, make};
use std::test::Fail;

#[derive(Drop)]
struct Entry {
    session: u32,
    command: u32,
}

impl Made for Entry {
    ghost session_of = { λ e. e.session };

    ghost command_of = { λ e. e.command };

    fn session(&self) -> u32 {
        self.session
    }

    fn command(&self) -> u32 {
        self.command
    }
}

fn made_by(session: u32, command: u32) -> Entry
    ensures { result ≡ record { session = session; command = command } }
{
    Entry { session, command }
}

#[test]
fn pins_of_one_thread(rt: HostRuntime) -> Result<(), Fail> {
    let mut keeper: Keeper<Entry> = make(rt.alloc())?;
    let board = keeper.share()?;
    let entry = Entry {
        session: 0,
        command: 1,
    };
    let first = keeper.pin(0)?;
    keeper.commit(&entry);
    let mut second = keeper.pin(1)?;
    let note = keeper.note();
    second.meet(&board, note);
    assert_eq!(rt; (first.time(), second.time()), (0, 1));
    assert_eq!(rt; (first.number, second.number), (0, 1));
    let note = second.copy_note(&board);
    assert_eq!(rt; note.floor(), 0);
    keeper.release(first);
    let third = keeper.pin(1)?;
    assert_eq!(rt;
        third.number,
        0,
        "the number of the pin that was taken back"
    );
    keeper.release(second);
    keeper.release(third);
    Ok(())
}

#[test]
fn two_sessions_and_two_pins(rt: HostRuntime) -> Result<(), Fail> {
    let mut keeper: Keeper<Entry> = make(rt.alloc())?;
    let first = made_by(1, 1);
    let second = made_by(1, 2);
    let other = made_by(2, 1);
    let mut one = keeper.enrol(1);
    let mut two = keeper.enrol(2);
    let low = keeper.pin(0)?;
    assert_eq!(rt; commit_as(&mut keeper, &mut one, &first, Some(&second)), 1);
    let high = keeper.pin(1)?;
    assert_eq!(rt; keeper.commit(&second), 2, "it was in doubt");
    assert_eq!(rt; commit_as(&mut keeper, &mut two, &other, None), 3);
    keeper.leave(one);
    let mut again = keeper.enrol(1);
    assert_eq!(rt; commit_as(&mut keeper, &mut again, &first, None), 4);
    keeper.leave(again);
    keeper.leave(two);
    assert_eq!(rt; (low.time(), high.time()), (0, 1));
    keeper.release(low);
    keeper.release(high);
    Ok(())
}
