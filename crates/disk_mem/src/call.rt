//! The calls that changed a disk in memory.

/// A call that was done.
#[derive(Drop)]
pub(crate) enum Call {
    Write { file: u64, at: u64, bytes: Vec<u8> },
    Sync { file: u64 },
    Remove { file: u64 },
}

impl Call {
    ghost use Rattle.std.specs.Prelude.{◌≡◌};
    ghost use Rattle.disk_mem.specs.Replay.{file_of};

    /// The file that the call is on.
    pub(crate) fn file(&self) -> u64
        ensures { result ≡ file_of self.now }
    {
        match self {
            Call::Write { file, .. } => *file,
            Call::Sync { file } => *file,
            Call::Remove { file } => *file,
        }
    }
}
