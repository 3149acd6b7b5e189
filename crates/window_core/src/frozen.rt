//! A window in memory that nobody changes any more.
ghost use Rattle.std.specs.Prelude.{◌≡◌, ◌≤◌, IfOk, IfErr};
ghost use Rattle.window_core.specs.declared.fault.WindowFault.TheVariants.{NoMemory};
ghost use Rattle.row_core.specs.Rows.{IsLast, IsChunk, IsWindow};
ghost use Rattle.window_core.specs.Windows.{IsFound, IsPart, IsPassage};

use crate::fault::WindowFault;
use crate::held::Held;
use crate::run::copied;
use crate::window::Window;
use base_core::Want;
use disk_core::Disk;
use fed_bytes::Span;
use row_core::{Chunk, Row, Rows};
use std::alloc::Global;
use std::sync::Arc;

/// A window in memory that nobody changes. Those who share it hold the same rows.
#[derive(Drop)]
pub struct FrozenWindow {
    pub(crate) held: Arc<Held>,
}

impl FrozenWindow {
    /// A window of these rows.
    pub fn of_rows(
        alloc: Global,
        span: Span,
        from: u64,
        upto: u64,
        floor: u64,
        rows: Rows,
    ) -> Result<FrozenWindow, Want>
        requires { IsWindow span from upto rows }
        ensures rows { IfOk result (λ made. ⟦<FrozenWindow as Window>⟧.rows made ≡ rows) }
        ensures span { IfOk result (λ made. ⟦<FrozenWindow as Window>⟧.span made ≡ span) }
        ensures from { IfOk result (λ made. ⟦<FrozenWindow as Window>⟧.from made ≡ from) }
        ensures upto { IfOk result (λ made. ⟦<FrozenWindow as Window>⟧.upto made ≡ upto) }
        ensures floor { IfOk result (λ made. ⟦<FrozenWindow as Window>⟧.floor made ≡ floor) }
    {
        let run = copied(alloc, rows.items())?;
        let held = Held {
            span,
            from,
            upto,
            floor,
            runs: vec![in alloc; run]?,
        };
        Ok(FrozenWindow {
            held: Arc::new(alloc, held)?,
        })
    }

    /// The same window once more, without a copy of its rows.
    pub fn share(&self, _alloc: Global) -> Result<FrozenWindow, Want>
        ensures rows { IfOk result (λ made. ⟦<FrozenWindow as Window>⟧.rows made ≡ ⟦<FrozenWindow as Window>⟧.rows self.now) }
        ensures span { IfOk result (λ made. ⟦<FrozenWindow as Window>⟧.span made ≡ ⟦<FrozenWindow as Window>⟧.span self.now) }
        ensures from { IfOk result (λ made. ⟦<FrozenWindow as Window>⟧.from made ≡ ⟦<FrozenWindow as Window>⟧.from self.now) }
        ensures upto { IfOk result (λ made. ⟦<FrozenWindow as Window>⟧.upto made ≡ ⟦<FrozenWindow as Window>⟧.upto self.now) }
        ensures floor { IfOk result (λ made. ⟦<FrozenWindow as Window>⟧.floor made ≡ ⟦<FrozenWindow as Window>⟧.floor self.now) }
    {
        let held = Arc::try_clone(&self.held)?;
        Ok(FrozenWindow { held })
    }
}

impl Window for FrozenWindow {
    ghost use Rattle.std.specs.Arc.{arc_value};
    ghost use Rattle.window_core.specs.Runs.{merged};
    ghost use Rattle.window_core.specs.Laws.{held_is};

    ghost rows = { λ window. merged (arc_value window.held).runs.items };

    ghost stands = { λ _ _. Unit {0} };

    ghost kept = { λ _ _ _. Unit {0} };

    ghost bad_rows = { λ _ _ _. ⊥ };

    ghost span = { λ window. (arc_value window.held).span };

    ghost from = { λ window. (arc_value window.held).from };

    ghost upto = { λ window. (arc_value window.held).upto };

    ghost floor = { λ window. (arc_value window.held).floor };

    ghost holds = { λ window. held_is (arc_value window.held) };

    fn span(&self) -> &Span {
        &self.held.span
    }

    fn from(&self) -> u64 {
        self.held.from
    }

    fn upto(&self) -> u64 {
        self.held.upto
    }

    fn floor(&self) -> u64 {
        self.held.floor
    }

    fn last<D: Disk>(
        &self,
        alloc: Global,
        disk: &mut D,
        key: &[u8],
        t: u64,
    ) -> Result<Option<Row>, WindowFault>
        ensures last { IfOk result (IsLast (⟦<FrozenWindow as Window>⟧.rows self.now) key.now t) }
        ensures found { IfOk result (IsFound (⟦<FrozenWindow as Window>⟧.span self.now) (⟦<FrozenWindow as Window>⟧.from self.now) (⟦<FrozenWindow as Window>⟧.upto self.now) key.now t) }
        ensures want { IfErr result (λ fault. fault ≡ NoMemory) }
        ensures untouched { disk.new ≡ disk.old }
    {
        let _ = disk;
        Ok(self.held.last(alloc, key, t)?)
    }

    fn chunk<D: Disk>(
        &self,
        alloc: Global,
        disk: &mut D,
        key: &[u8],
        most: u32,
    ) -> Result<Chunk, WindowFault>
        requires { 1 ≤ most }
        ensures chunk { IfOk result (IsChunk (⟦<FrozenWindow as Window>⟧.rows self.now) key.now most) }
        ensures part { IfOk result (IsPart (⟦<FrozenWindow as Window>⟧.span self.now) (⟦<FrozenWindow as Window>⟧.from self.now) (⟦<FrozenWindow as Window>⟧.upto self.now) key.now) }
        ensures passage { IfOk result (IsPassage (⟦<FrozenWindow as Window>⟧.span self.now) key.now most) }
        ensures want { IfErr result (λ fault. fault ≡ NoMemory) }
        ensures untouched { disk.new ≡ disk.old }
    {
        let _ = disk;
        Ok(self.held.chunk(alloc, key, most)?)
    }
}
