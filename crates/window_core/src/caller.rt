//! A caller of windows of any kind, over any device.
ghost use Rattle.std.specs.Prelude.{◌≡◌, IfOk, IfErr, IfSome};
ghost use Rattle.window_core.specs.Windows.{IsCountedBy, IsNoDamage, IsCause};
ghost use Rattle.window_core.specs.Caller.{IsFirstAt};

use crate::fault::WindowFault;
use crate::window::Window;
use disk_core::Disk;
use row_core::Row;
use std::alloc::Global;

/// The newest row, at or before a time, of the first key from a key on.
pub fn first_at<W: Window, D: Disk>(
    window: &W,
    alloc: Global,
    disk: &mut D,
    key: &[u8],
    time: u64,
) -> Result<Option<Row>, WindowFault>
    ensures first { W.stands window.now (D.told disk.old) → IfOk result (IsFirstAt (W.rows window.now) key.now time) }
    ensures kept { IfOk result (λ found. IfSome found (W.kept window.now (D.told disk.old))) }
    ensures whole { W.stands window.now (D.told disk.old) → IfErr result IsNoDamage }
    ensures cause { IfErr result (IsCause (W.bad_rows window.now (D.told disk.old))) }
    ensures same { D.told disk.new ≡ D.told disk.old }
    ensures counted { IsCountedBy (D.fault_count disk.old) (D.fault_count disk.new) result }
{
    let chunk = window.chunk(alloc, disk, key, 1)?;
    let Some(first) = chunk.rows.items().first() else {
        return Ok(None);
    };
    window.last(alloc, disk, first.key.bytes(), time)
}
