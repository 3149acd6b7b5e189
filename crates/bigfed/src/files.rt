//! The working folder as a shelf, and standard output as a sink.
//!
//! They meet their traits and tell no content: what a file gives and what the system does with the bytes that it
//! took is trusted.
ghost use Rattle.std.specs.Prelude.{◌≤◌, None};
ghost use Rattle.base_core.specs.Faults.{HasRisen};

use base_core::Text;
use std::fs::{self, File};
use std::io::{self, ErrorKind, Read, Write};
use work_text::{Failed, Shelf, Sink};

/// The files of the working folder, and of any other path that a name gives.
#[derive(Drop)]
pub struct FileShelf<'a> {
    rt: &'a HostRuntime,
    file: Option<File>,
    faults: u64,
}

impl<'a> FileShelf<'a> {
    pub fn new(rt: &'a HostRuntime) -> FileShelf<'a> {
        FileShelf {
            rt,
            file: None,
            faults: 0,
        }
    }

    fn fail(&mut self) -> Failed
        ensures later { self.old.faults ≤ self.new.faults }
        ensures risen { HasRisen self.old.faults self.new.faults }
    {
        self.faults = self.faults.saturating_add(1);
        Failed
    }
}

impl Shelf for FileShelf<'_> {
    ghost documents = { λ _. None };

    ghost left = { λ _. None };

    ghost fault_count = { λ s. s.faults };

    fn faults(&self) -> u64 {
        self.faults
    }

    fn fetch(&mut self, name: &Text) -> Result<bool, Failed> {
        self.file = None;
        match fs::open(self.rt, name.text()) {
            Ok(file) => {
                self.file = Some(file);
                Ok(true)
            }
            Err(error) => match error.kind() {
                ErrorKind::NotFound | ErrorKind::NotADirectory | ErrorKind::InvalidInput => {
                    Ok(false)
                }
                _ => Err(self.fail()),
            },
        }
    }

    fn read(&mut self, out: &mut [u8]) -> Result<usize, Failed> {
        let Some(file) = &mut self.file else {
            return Ok(0);
        };
        for _ in 0..u64::MAX {
            match file.read(out) {
                Ok(n) => return Ok(n),
                Err(error) => {
                    if error.kind() != ErrorKind::Interrupted {
                        break;
                    }
                }
            }
        }
        Err(self.fail())
    }
}

/// Standard output.
#[derive(Drop)]
pub struct Printer<'a> {
    rt: &'a HostRuntime,
    faults: u64,
}

impl<'a> Printer<'a> {
    pub fn new(rt: &'a HostRuntime) -> Printer<'a> {
        Printer { rt, faults: 0 }
    }
}

impl Sink for Printer<'_> {
    ghost taken = { λ _. None };

    ghost fault_count = { λ s. s.faults };

    fn faults(&self) -> u64 {
        self.faults
    }

    fn write(&mut self, bytes: &[u8]) -> Result<usize, Failed> {
        for _ in 0..u64::MAX {
            match io::writer(self.rt).write(bytes) {
                Ok(0) => break,
                Ok(n) => return Ok(n),
                Err(error) => {
                    if error.kind() != ErrorKind::Interrupted {
                        break;
                    }
                }
            }
        }
        self.faults = self.faults.saturating_add(1);
        Err(Failed)
    }
}
