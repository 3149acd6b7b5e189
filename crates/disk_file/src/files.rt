//! What was done to the files of a folder, and what of it is still to be stored.
//!
//! A file is held open from its first write to the sync behind it, so that this sync is told of each write that the
//! system couldn't store. What a sync couldn't store the system may have dropped, so that nothing can be promised of
//! the file any more, neither what reads give nor what a crash leaves: it is lost, and each call on it fails until it is
//! removed. The folder has to be synced for a file that was made to be found after a crash, and for one that was
//! removed to be gone. Once that has failed, each sync fails that needs it.
ghost use Rattle.std.specs.Prelude.{◌≤◌, length, IfOk};

use crate::folder::Folder;
use std::collections::{BTreeMap, BTreeSet};
use std::fs::File;
use std::io::{self, ErrorKind};
use std::os::unix::fs::FileExt;

/// The files of a folder, and what of them is still to be stored.
#[derive(Drop)]
pub(crate) struct Files<'a> {
    folder: Folder<'a>,
    /// The files that were written since their last sync.
    written: BTreeMap<u64, File>,
    /// The files that were made or removed since the last sync of the folder.
    moved: BTreeSet<u64>,
    /// The files of which a sync or a removal didn't succeed.
    lost: BTreeSet<u64>,
    /// A sync of the folder didn't succeed.
    folder_is_lost: bool,
}

impl<'a> Files<'a> {
    pub(crate) fn open(rt: &'a HostRuntime, folder: &str) -> io::Result<Files<'a>> {
        Ok(Files {
            folder: Folder::open(rt, folder)?,
            written: BTreeMap::new(rt.alloc()),
            moved: BTreeSet::new(rt.alloc()),
            lost: BTreeSet::new(rt.alloc()),
            folder_is_lost: false,
        })
    }

    pub(crate) fn length_of(&self, file: u64) -> io::Result<u64> {
        self.check(file)?;
        self.folder.length_of(file)
    }

    pub(crate) fn greatest(&self) -> io::Result<u64> {
        self.folder.greatest()
    }

    pub(crate) fn read(&self, file: u64, at: u64, out: &mut [u8]) -> io::Result<usize>
        ensures { IfOk result (λ n. n ≤ length out.new) }
    {
        self.check(file)?;
        match self.folder.open_file(file)? {
            Some(held) => read_from(&held, at, out),
            None => Ok(0),
        }
    }

    pub(crate) fn write(&mut self, file: u64, at: u64, bytes: &[u8]) -> io::Result<()> {
        self.check(file)?;
        if bytes.is_empty() {
            return Ok(());
        }
        if !self.holds(file)? {
            self.moved.insert(file)?;
            let held = self.folder.make_file(file)?;
            self.written.insert(file, held)?;
        }
        match self.written.get(&file) {
            Some(held) => held.write_all_at(bytes, at),
            None => Err(io::Error::from(ErrorKind::NotFound)),
        }
    }

    fn check(&self, file: u64) -> io::Result<()> {
        if self.lost.contains(&file) {
            return Err(io::Error::from(ErrorKind::Other));
        }
        Ok(())
    }

    /// Holds the file open, if there is one.
    fn holds(&mut self, file: u64) -> io::Result<bool> {
        if self.written.contains_key(&file) {
            return Ok(true);
        }
        let Some(held) = self.folder.open_file(file)? else {
            return Ok(false);
        };
        self.written.insert(file, held)?;
        Ok(true)
    }

    /// A file whose removal failed may be there or not, and is lost.
    pub(crate) fn remove(&mut self, file: u64) -> io::Result<()> {
        self.moved.insert(file)?;
        self.lost.insert(file)?;
        self.written.remove(&file);
        self.folder.remove_file(file)?;
        self.lost.remove(&file);
        Ok(())
    }

    /// The bytes first, then the folder: of a file that was removed there is only the folder to sync.
    pub(crate) fn sync(&mut self, file: u64) -> io::Result<()> {
        self.check(file)?;
        if self.holds(file)? {
            self.sync_bytes(file)?;
        }
        if self.moved.contains(&file) {
            self.sync_folder()?;
        }
        Ok(())
    }

    fn sync_bytes(&mut self, file: u64) -> io::Result<()> {
        self.lost.insert(file)?;
        if let Some(held) = self.written.get(&file) {
            held.sync_all()?;
        }
        self.lost.remove(&file);
        self.written.remove(&file);
        Ok(())
    }

    fn sync_folder(&mut self) -> io::Result<()> {
        if self.folder_is_lost {
            return Err(io::Error::from(ErrorKind::Other));
        }
        self.folder_is_lost = true;
        self.folder.sync()?;
        self.folder_is_lost = false;
        self.moved.clear();
        Ok(())
    }
}

/// Fills the front of `out` with what stands from `at` on, and answers how many bytes that is.
fn read_from(file: &File, at: u64, out: &mut [u8]) -> io::Result<usize>
    ensures { IfOk result (λ n. n ≤ length out.new) }
{
    let mut count = 0;
    'reads: for _ in 0..u64::MAX {
        if count >= out.len() {
            break;
        }
        let Some(place) = at.checked_add(count as u64) else {
            break;
        };
        match file.read_at(&mut out[count..], place) {
            Ok(0) => break,
            Ok(n) => count += n,
            Err(error) => {
                if error.kind() != ErrorKind::Interrupted {
                    return Err(error);
                }
            }
        }
    }
    Ok(count)
}
