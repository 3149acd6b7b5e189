//! The lines of a place: the listed shards, by index and left end.
ghost use Rattle.std.specs.Prelude.{◌≡◌, ◌+◌, ◌<◌, ◌≤◌, ◌⊎◌, ◌↔◌, true, false, length, take, drop, map, IfSome, IfNone, vec_len, vec_capacity};
ghost use Rattle.std.specs.Ordering.{is_le, nat_cmp};
ghost use Rattle.std.specs.Cmp.Lexicographic.{slice_cmp};
ghost use Rattle.base_core.specs.Lists.{Has};
ghost use Rattle.place_board.specs.Tokens.{IsSoundList};
ghost use Rattle.place_core.specs.declared.shards.Line.{Line};
ghost use Rattle.place_core.specs.Shown.{place_of};
ghost use Rattle.place_core.specs.Places.{LinesStandInOrder, all_listed, WereNeverListed, AreAdded};
ghost use Rattle.place_core.specs.Lines.{up_to, AreLines, IsHeldAt, IsNumberAt, IsElsewhere, ShareLeft, MayBeListed};

use crate::shards::{Born, Line, index_place};
use place_board::ListSeat;
use row_core::Index;

/// Where the line stands that has the key.
pub(crate) fn holder(lines: &[Line], index: Index, key: &[u8]) -> usize
    requires { AreLines lines.now }
    ensures { IsHeldAt lines.now index key.now result }
{
    first_behind(lines, index, key) - 1
}

/// Where the line of this number stands, if it has just the keys of the born shards.
pub(crate) fn place_of_old(lines: &[Line], old: u32, born: &[Born]) -> Option<usize>
    requires { AreLines lines.now }
    ensures some { IfSome result (λ at. IsNumberAt lines.now old at) }
    ensures none { IfNone result (IsElsewhere lines.now old born.now) }
{
    let Some(first) = born.first() else {
        return None;
    };
    let at = holder(lines, first.index, first.span.left.bytes());
    if lines[at].number == old {
        Some(at)
    } else {
        None
    }
}

/// Lists the born shards, and puts their lines among the others, where there is room for all of them.
pub(crate) fn list_all(seat: &mut ListSeat, lines: &mut Vec<Line>, born: Vec<Born>)
    requires sound { IsSoundList seat.old }
    requires may { MayBeListed seat.old lines.old.items born.items }
    requires room { vec_len lines.old + vec_len born ≤ vec_capacity lines.old }
    ensures told { seat.new ≡ all_listed born.items seat.old }
    ensures sound { IsSoundList seat.new }
    ensures first { WereNeverListed born.items seat.old }
    ensures added { AreAdded born.items lines.old.items lines.new.items }
    ensures order { LinesStandInOrder lines.new.items }
{
    'born: for one in born {
        let Born {
            number,
            service,
            index,
            span,
            note,
        } = one;
        seat.list(number, note);
        put_line(
            lines,
            Line {
                number,
                service,
                index,
                span,
            },
        );
    }
}

// Puts a line in its place, where there is room for it.
fn put_line(lines: &mut Vec<Line>, line: Line)
    requires room { vec_len lines.old < vec_capacity lines.old }
    requires order { LinesStandInOrder lines.old.items }
    requires apart { (other : Line) → Has lines.old.items other → ¬ ShareLeft other line }
    ensures has { (other : Line) → (Has lines.new.items other ↔ (Has lines.old.items other ⊎ (line ≡ other))) }
    ensures order { LinesStandInOrder lines.new.items }
    ensures longer { vec_len lines.new ≡ vec_len lines.old + 1 }
    ensures capacity { vec_capacity lines.old ≤ vec_capacity lines.new }
{
    let at = first_behind(lines.as_slice(), line.index, line.span.left.bytes());
    // There is room, so nothing comes back.
    let _ = lines.insert(at, line);
}

// Where the lines begin that stand behind the key.
fn first_behind(lines: &[Line], index: Index, key: &[u8]) -> usize
    requires { LinesStandInOrder lines.now }
    ensures bound { result ≤ length lines.now }
    ensures front { (line : Line) → Has (take result lines.now) line → up_to (place_of index) key.now line ≡ true }
    ensures back { (line : Line) → Has (drop result lines.now) line → up_to (place_of index) key.now line ≡ false }
{
    let place = index_place(index);
    lines.partition_point(|line| is_up_to(line, place, key))
}

// Whether the line stands no later than one with this left end would.
fn is_up_to(line: &Line, place: u8, key: &[u8]) -> bool
    ensures { result ≡ up_to place key.now line.now }
{
    let own = index_place(line.index);
    if own == place {
        return is_key_up_to(line.span.left.bytes(), key);
    }
    own < place
}

fn is_key_up_to(first: &[u8], second: &[u8]) -> bool
    ensures { result ≡ is_le (slice_cmp nat_cmp first.now second.now) }
{
    first.cmp(second).is_le()
}
