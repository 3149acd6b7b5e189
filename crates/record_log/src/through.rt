//! A write that is on the disk when it returns.
ghost use Rattle.std.specs.Prelude.{length, OnOk, OnErr};
ghost use Rattle.base_core.specs.Faults.{IsCounted};
ghost use Rattle.disk_core.specs.Disk.{IsPerhapsWritten};
ghost use Rattle.record_log.specs.Through.{IsWrittenThrough};

use disk_core::{Disk, Failed};

/// Writes the bytes and syncs the file: two calls of the device.
pub fn write_through<D: Disk>(disk: &mut D, file: u64, at: u64, bytes: &[u8]) -> Result<(), Failed>
    ensures counted { IsCounted (D.fault_count disk.old) (D.fault_count disk.new) result }
    ensures ok { OnOk result (IsWrittenThrough file at bytes.now (D.told disk.old) (D.told disk.new)) }
    ensures err { OnErr result (IsPerhapsWritten file at (length bytes.now) (D.told disk.old) (D.told disk.new)) }
{
    disk.write_at(file, at, bytes)?;
    disk.sync(file)
}
