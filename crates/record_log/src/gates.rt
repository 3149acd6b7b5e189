//! Reading a log: gate by gate, with the length behind each, past the bodies.
ghost use Rattle.std.specs.Prelude.{◌≡◌, ◌+◌, ◌<◌, ℕ, List, length, IfOk, IfErr, IfSome};
ghost use Rattle.base_core.specs.Faults.{IsCounted};
ghost use Rattle.record_log.specs.Gates.{IsOpenAt, IsHead, IsBehind, AreFound};
ghost use Rattle.record_log.specs.Devices.{ReadsFile};
ghost use Rattle.record_log.specs.Faults.{IsReadFault, IsStartFault, IsCountedBy};
ghost use Rattle.record_log.specs.declared.extent.Stage.TheVariants.{Settled};

use crate::extent::{Extent, HEAD_SIZE};
use crate::fault::LogFault;
use base_core::first_u32;
use disk_core::{Disk, Failed};
use std::alloc::Global;

pub const OPEN: u8 = 1;

pub const CLOSED: u8 = 0;

/// What the first bytes from a gate on say.
#[derive(Drop)]
enum Head {
    Closed,
    /// The size of the body behind the gate.
    Open { body: u32 },
    /// The gate is open, and no four bytes stand behind it.
    Short,
}

/// Whether the gate at a place is open.
pub fn is_open_at<D: Disk>(disk: &mut D, file: u64, gate: u64) -> Result<bool, Failed>
    ensures same { D.told disk.new ≡ D.told disk.old }
    ensures counted { IsCounted (D.fault_count disk.old) (D.fault_count disk.new) result }
    ensures gate { IfOk result (IsOpenAt (D.told disk.old) file gate) }
{
    let mut byte = [CLOSED];
    let count = disk.read_at(file, gate, &mut byte)?;
    if count == 0 {
        return Ok(false);
    }
    Ok(byte[0] == OPEN)
}

fn head_of(bytes: &[u8]) -> Head
    requires { 0 < length bytes.now }
    ensures { IsHead bytes.now result }
{
    let Some((gate, behind)) = bytes.split_first() else {
        return Head::Short;
    };
    if *gate != OPEN {
        return Head::Closed;
    }
    match first_u32(behind) {
        Some((body, _)) => Head::Open { body },
        None => Head::Short,
    }
}

/// The size of the body behind an open gate, or `None` at a closed one. The file has `size` bytes.
fn size_behind<D: Disk>(
    disk: &mut D,
    file: u64,
    gate: u64,
    size: u64,
) -> Result<Option<u32>, LogFault>
    requires { gate < size }
    ensures same { D.told disk.new ≡ D.told disk.old }
    ensures counted { IsCountedBy (D.fault_count disk.old) (D.fault_count disk.new) result }
    ensures within { IfOk result (λ body. IfSome body (λ n. gate + 5 + n < size)) }
    ensures faults { IfErr result IsReadFault }
    ensures behind { (bytes : List ℕ) → ReadsFile (D.told disk.old) file bytes → size ≡ length bytes → IsBehind bytes gate result }
{
    let mut head = [0; HEAD_SIZE as usize];
    let count = disk.read_at(file, gate, &mut head)?;
    if count == 0 {
        return Err(LogFault::BadRecord { at: gate });
    }
    match head_of(&head[..count]) {
        Head::Closed => Ok(None),
        Head::Open { body } if size - gate > HEAD_SIZE + u64::from(body) => Ok(Some(body)),
        _ => Err(LogFault::BadRecord { at: gate }),
    }
}

/// Finds the records of a log whose file has `size` bytes. Each gate and each length is read once, and no body.
pub fn find_records<D: Disk>(
    alloc: Global,
    disk: &mut D,
    file: u64,
    size: u64,
) -> Result<Extent, LogFault>
    requires { 1 < size }
    ensures same { D.told disk.new ≡ D.told disk.old }
    ensures counted { IsCountedBy (D.fault_count disk.old) (D.fault_count disk.new) result }
    ensures settled { IfOk result (λ extent. extent.stage ≡ Settled) }
    ensures faults { IfErr result IsReadFault }
    ensures found { (bytes : List ℕ) → ReadsFile (D.told disk.old) file bytes → size ≡ length bytes → IfOk result (λ extent. AreFound bytes extent.sizes) }
    ensures bad { (bytes : List ℕ) → ReadsFile (D.told disk.old) file bytes → size ≡ length bytes → IfErr result (IsStartFault bytes) }
{
    let mut extent = Extent::new(alloc);
    let mut gate = 0;
    'gates: loop {
        let Some(body) = size_behind(disk, file, gate, size)? else {
            return Ok(extent);
        };
        extent.add(body)?;
        gate += HEAD_SIZE + u64::from(body);
    }
}
