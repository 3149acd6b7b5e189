//! The windows of a shard.
ghost use Rattle.std.specs.Prelude.{◌≡◌, ◌≤◌, IfOk, IfErr};
ghost use Rattle.window_core.specs.contracts.live.LiveWindowWindow.TheImpl.Laws.{holds-law};
ghost use Rattle.shard_core.specs.declared.window.AnyWindow.TheVariants.{Live};

use disk_core::Disk;
use fed_bytes::Span;
use row_core::{Chunk, Row};
use std::alloc::Global;
use window_core::{LiveWindow, Window, WindowFault};

/// A window of a shard.
#[derive(Drop)]
pub enum AnyWindow {
    Live(LiveWindow),
}

impl Window for AnyWindow {
    ghost rows = { elim [ Live live ↦ ⟦<LiveWindow as Window>⟧.rows live ] };

    ghost stands = { elim [ Live live ↦ ⟦<LiveWindow as Window>⟧.stands live ] };

    ghost kept = { elim [ Live live ↦ ⟦<LiveWindow as Window>⟧.kept live ] };

    ghost bad_rows = { elim [ Live live ↦ ⟦<LiveWindow as Window>⟧.bad_rows live ] };

    ghost span = { elim [ Live live ↦ ⟦<LiveWindow as Window>⟧.span live ] };

    ghost from = { elim [ Live live ↦ ⟦<LiveWindow as Window>⟧.from live ] };

    ghost upto = { elim [ Live live ↦ ⟦<LiveWindow as Window>⟧.upto live ] };

    ghost floor = { elim [ Live live ↦ ⟦<LiveWindow as Window>⟧.floor live ] };

    ghost holds = { elim [ Live live ↦ holds-law live ] };

    fn span(&self) -> &Span {
        match self {
            AnyWindow::Live(live) => live.span(),
        }
    }

    fn from(&self) -> u64 {
        match self {
            AnyWindow::Live(live) => live.from(),
        }
    }

    fn upto(&self) -> u64 {
        match self {
            AnyWindow::Live(live) => live.upto(),
        }
    }

    fn floor(&self) -> u64 {
        match self {
            AnyWindow::Live(live) => live.floor(),
        }
    }

    fn last<D: Disk>(
        &self,
        alloc: Global,
        disk: &mut D,
        key: &[u8],
        t: u64,
    ) -> Result<Option<Row>, WindowFault> {
        match self {
            AnyWindow::Live(live) => live.last(alloc, disk, key, t),
        }
    }

    fn chunk<D: Disk>(
        &self,
        alloc: Global,
        disk: &mut D,
        key: &[u8],
        most: u32,
    ) -> Result<Chunk, WindowFault> {
        match self {
            AnyWindow::Live(live) => live.chunk(alloc, disk, key, most),
        }
    }
}
