//! A folder of files whose names are their numbers, in decimal and without leading zeros.
use std::alloc::AllocError;
use std::fs::{self, File};
use std::io::{self, ErrorKind};
use std::path::Path;

/// A folder, held open so that its sync tells of each change that couldn't be stored.
#[derive(Drop)]
pub(crate) struct Folder<'a> {
    rt: &'a HostRuntime,
    path: String,
    held: File,
}

impl<'a> Folder<'a> {
    /// Makes the folder where it is missing, and syncs it and the one that it stands in.
    pub(crate) fn open(rt: &'a HostRuntime, path: &str) -> io::Result<Folder<'a>> {
        make_folder(rt, path)?;
        let folder = Folder {
            rt,
            path: String::from_str(rt.alloc(), path)?,
            held: fs::open(rt, path)?,
        };
        folder.sync()?;
        fs::open(rt, outer(path))?.sync_all()?;
        Ok(folder)
    }

    /// The file of that number, for writes and syncs too.
    pub(crate) fn open_file(&self, file: u64) -> io::Result<Option<File>> {
        let path = self.path_of(file)?;
        let mut options = File::options();
        options.read(true).write(true);
        found(options.open(self.rt, path.as_str()))
    }

    /// A new file of that number.
    pub(crate) fn make_file(&self, file: u64) -> io::Result<File> {
        let path = self.path_of(file)?;
        File::create_new(self.rt, path.as_str())
    }

    pub(crate) fn remove_file(&self, file: u64) -> io::Result<()> {
        let path = self.path_of(file)?;
        found(fs::remove_file(self.rt, path.as_str()))?;
        Ok(())
    }

    /// A missing file has the length 0.
    pub(crate) fn length_of(&self, file: u64) -> io::Result<u64> {
        let path = self.path_of(file)?;
        match found(fs::metadata(self.rt, path.as_str()))? {
            Some(metadata) => Ok(metadata.len()),
            None => Ok(0),
        }
    }

    /// The greatest number of a file with bytes, or 0.
    pub(crate) fn greatest(&self) -> io::Result<u64> {
        let mut greatest = 0;
        'entries: for entry in fs::read_dir(self.rt, self.path.as_str())? {
            let entry = entry?;
            let Some(file) = number_of(entry.file_name()) else {
                continue;
            };
            if file > greatest && entry.metadata()?.len() > 0 {
                greatest = file;
            }
        }
        Ok(greatest)
    }

    /// Behind it a crash leaves the files that were made, and not those that were removed.
    pub(crate) fn sync(&self) -> io::Result<()> {
        self.held.sync_all()
    }

    fn path_of(&self, file: u64) -> Result<String, AllocError> {
        let path = self.path.as_str();
        format!(in self.rt.alloc(); "{path}/{file}")
    }
}

fn make_folder(rt: &HostRuntime, path: &str) -> io::Result<()> {
    match fs::create_dir(rt, path) {
        Ok(()) => Ok(()),
        Err(error) => match error.kind() {
            ErrorKind::AlreadyExists => Ok(()),
            _ => Err(error),
        },
    }
}

/// The folder that a path stands in.
fn outer(path: &str) -> &str {
    let Some(outer) = Path::new(path).parent() else {
        return "/";
    };
    match outer.to_str() {
        Some("") | None => ".",
        Some(text) => text,
    }
}

/// The number that a name spells.
fn number_of(name: &str) -> Option<u64> {
    match name.as_bytes() {
        [b'0'] | [b'1'..=b'9', ..] => name.parse::<u64>().ok(),
        _ => None,
    }
}

/// `None` where what was sought is missing.
fn found<T>(outcome: io::Result<T>) -> io::Result<Option<T>> {
    match outcome {
        Ok(value) => Ok(Some(value)),
        Err(error) => match error.kind() {
            ErrorKind::NotFound => Ok(None),
            _ => Err(error),
        },
    }
}
