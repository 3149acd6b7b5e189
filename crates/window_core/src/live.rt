//! A window in memory that is being filled.
ghost use Rattle.std.specs.Prelude.{◌≡◌, ◌↔◌, ◌+◌, ◌≤◌, [], IsTrue, IfOk, IfErr, OnOk, OnErr};
ghost use Rattle.window_core.specs.declared.fault.WindowFault.TheVariants.{NoMemory};
ghost use Rattle.row_core.specs.Rows.{IsLast, IsChunk, AreChanges, AreExtended};
ghost use Rattle.window_core.specs.Windows.{IsFound, IsPart, IsPassage};

use crate::fault::WindowFault;
use crate::frozen::FrozenWindow;
use crate::held::Held;
use crate::window::Window;
use base_core::Want;
use disk_core::Disk;
use fed_bytes::Span;
use row_core::{Chunk, Row, Rows};
use std::alloc::Global;
use std::sync::Arc;

/// A window in memory that is being filled, one time after the other. Nothing is pruned in it.
#[derive(Drop)]
pub struct LiveWindow {
    // It has one owner, up to `freeze`.
    held: Arc<Held>,
}

impl LiveWindow {
    /// A window with no rows. Its memory is taken here, so that `freeze` takes none.
    pub fn make(alloc: Global, span: Span, from: u64) -> Result<LiveWindow, Want>
        ensures rows { IfOk result (λ made. ⟦<LiveWindow as Window>⟧.rows made ≡ []) }
        ensures span { IfOk result (λ made. ⟦<LiveWindow as Window>⟧.span made ≡ span) }
        ensures from { IfOk result (λ made. ⟦<LiveWindow as Window>⟧.from made ≡ from) }
        ensures upto { IfOk result (λ made. ⟦<LiveWindow as Window>⟧.upto made ≡ from) }
        ensures floor { IfOk result (λ made. ⟦<LiveWindow as Window>⟧.floor made ≡ 0) }
    {
        let held = Held {
            span,
            from,
            upto: from,
            floor: 0,
            runs: Vec::new(alloc),
        };
        Ok(LiveWindow {
            held: Arc::new(alloc, held)?,
        })
    }

    /// Adds the rows whose keys are in the span, and moves `upto` to their time. After an `Err` the window is as it
    /// was.
    pub fn add(&mut self, alloc: Global, rows: &Rows, time: u64) -> Result<(), Want>
        requires next { time ≡ ⟦<LiveWindow as Window>⟧.upto self.old + 1 }
        requires changes { AreChanges time rows.now }
        ensures rows { OnOk result (AreExtended (⟦<LiveWindow as Window>⟧.span self.old) (⟦<LiveWindow as Window>⟧.rows self.old) rows.now (⟦<LiveWindow as Window>⟧.rows self.new)) }
        ensures upto { OnOk result (⟦<LiveWindow as Window>⟧.upto self.new ≡ time) }
        ensures err_rows { OnErr result (⟦<LiveWindow as Window>⟧.rows self.new ≡ ⟦<LiveWindow as Window>⟧.rows self.old) }
        ensures err_upto { OnErr result (⟦<LiveWindow as Window>⟧.upto self.new ≡ ⟦<LiveWindow as Window>⟧.upto self.old) }
        ensures span { ⟦<LiveWindow as Window>⟧.span self.new ≡ ⟦<LiveWindow as Window>⟧.span self.old }
        ensures from { ⟦<LiveWindow as Window>⟧.from self.new ≡ ⟦<LiveWindow as Window>⟧.from self.old }
        ensures floor { ⟦<LiveWindow as Window>⟧.floor self.new ≡ ⟦<LiveWindow as Window>⟧.floor self.old }
    {
        // It is the one owner, so there is always a `Some`; the type doesn't say so.
        let Some(held) = Arc::get_mut(&mut self.held) else {
            return Err(Want::NoMemory);
        };
        held.add(alloc, rows, time)
    }

    pub fn is_empty(&self) -> bool
        ensures { IsTrue result ↔ (⟦<LiveWindow as Window>⟧.rows self.now ≡ []) }
    {
        self.held.is_empty()
    }

    /// The window as it is, for good. Takes no memory.
    pub fn freeze(self) -> FrozenWindow
        ensures rows { ⟦<FrozenWindow as Window>⟧.rows result ≡ ⟦<LiveWindow as Window>⟧.rows self }
        ensures span { ⟦<FrozenWindow as Window>⟧.span result ≡ ⟦<LiveWindow as Window>⟧.span self }
        ensures from { ⟦<FrozenWindow as Window>⟧.from result ≡ ⟦<LiveWindow as Window>⟧.from self }
        ensures upto { ⟦<FrozenWindow as Window>⟧.upto result ≡ ⟦<LiveWindow as Window>⟧.upto self }
        ensures floor { ⟦<FrozenWindow as Window>⟧.floor result ≡ ⟦<LiveWindow as Window>⟧.floor self }
    {
        FrozenWindow { held: self.held }
    }
}

impl Window for LiveWindow {
    ghost use Rattle.std.specs.Arc.{arc_value};
    ghost use Rattle.window_core.specs.Runs.{merged};
    ghost use Rattle.window_core.specs.Laws.{held_is};

    ghost rows = { λ window. merged (arc_value window.held).runs.items };

    ghost stands = { λ _ _. Unit {0} };

    ghost kept = { λ _ _ _. Unit {0} };

    ghost bad_rows = { λ _ _ _. ⊥ };

    ghost span = { λ window. (arc_value window.held).span };

    ghost from = { λ window. (arc_value window.held).from };

    ghost upto = { λ window. (arc_value window.held).upto };

    ghost floor = { λ window. (arc_value window.held).floor };

    ghost holds = { λ window. held_is (arc_value window.held) };

    fn span(&self) -> &Span {
        &self.held.span
    }

    fn from(&self) -> u64 {
        self.held.from
    }

    fn upto(&self) -> u64 {
        self.held.upto
    }

    fn floor(&self) -> u64 {
        self.held.floor
    }

    fn last<D: Disk>(
        &self,
        alloc: Global,
        disk: &mut D,
        key: &[u8],
        t: u64,
    ) -> Result<Option<Row>, WindowFault>
        ensures last { IfOk result (IsLast (⟦<LiveWindow as Window>⟧.rows self.now) key.now t) }
        ensures found { IfOk result (IsFound (⟦<LiveWindow as Window>⟧.span self.now) (⟦<LiveWindow as Window>⟧.from self.now) (⟦<LiveWindow as Window>⟧.upto self.now) key.now t) }
        ensures want { IfErr result (λ fault. fault ≡ NoMemory) }
        ensures untouched { disk.new ≡ disk.old }
    {
        let _ = disk;
        Ok(self.held.last(alloc, key, t)?)
    }

    fn chunk<D: Disk>(
        &self,
        alloc: Global,
        disk: &mut D,
        key: &[u8],
        most: u32,
    ) -> Result<Chunk, WindowFault>
        requires { 1 ≤ most }
        ensures chunk { IfOk result (IsChunk (⟦<LiveWindow as Window>⟧.rows self.now) key.now most) }
        ensures part { IfOk result (IsPart (⟦<LiveWindow as Window>⟧.span self.now) (⟦<LiveWindow as Window>⟧.from self.now) (⟦<LiveWindow as Window>⟧.upto self.now) key.now) }
        ensures passage { IfOk result (IsPassage (⟦<LiveWindow as Window>⟧.span self.now) key.now most) }
        ensures want { IfErr result (λ fault. fault ≡ NoMemory) }
        ensures untouched { disk.new ≡ disk.old }
    {
        let _ = disk;
        Ok(self.held.chunk(alloc, key, most)?)
    }
}
