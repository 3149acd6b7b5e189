//! Reading works.
//!
//! The lines are taken one by one. What was read so far is nothing, where all lines were skipped, or the first line
//! of a work and the commands behind it; a line that can't follow is the bad one.
ghost use Rattle.std.specs.Prelude.{◌≡◌, ◌≤◌, length, IfOk, IfErr, MatchResult};
ghost use Rattle.work_text.specs.declared.work.Work.{Work as Parsed};
ghost use Rattle.work_text.specs.declared.read.WorkFault.TheVariants.{NoMemory as MemoryFault};
ghost use Rattle.work_text.specs.Faults.{IsWorkFault, IsNoMemory};
ghost use Rattle.work_text.specs.Work.{IsWork, is_skipped};
ghost use Rattle.work_text.specs.WorkReading.{WorkGoesOn, CannotGoOn};
ghost use Rattle.work_text.specs.Limits.{largest_work};

use crate::read_line::{is_header, line_of};
use crate::work::{Line, Work};
use base_core::{LineEnd, List, Want, first_line};
use std::alloc::{AllocError, AllocFailed, Global};

/// At most so many commands are in a work.
const MOST_COMMANDS: usize = 4096;

/// Why a work could not be read.
#[derive(Clone, Copy, Debug, PartialEq, Eq)]
pub enum WorkFault {
    NoMemory,
    /// The first line, counted from 1, that is outside the grammar.
    BadWork { line: u32 },
}

impl From<Want> for WorkFault {
    ghost from_gives = { λ _ e. e ≡ MemoryFault };

    fn from(_e: Want) -> WorkFault {
        WorkFault::NoMemory
    }
}

impl From<AllocError> for WorkFault {
    ghost from_gives = { λ _ e. e ≡ MemoryFault };

    fn from(_e: AllocError) -> WorkFault {
        WorkFault::NoMemory
    }
}

impl<T: Drop> From<AllocFailed<T>> for WorkFault {
    ghost from_gives = { λ _ e. e ≡ MemoryFault };

    fn from(_e: AllocFailed<T>) -> WorkFault {
        WorkFault::NoMemory
    }
}

/// Reads the text of a work.
pub fn read_work(alloc: Global, bytes: &[u8]) -> Result<Work, WorkFault>
    requires { length bytes.now ≤ largest_work }
    ensures found { IfOk result (IsWork bytes.now) }
    // A text is that of no other work.
    ensures only { (work : Parsed) → IsWork bytes.now work → MatchResult result (λ found. found ≡ work) IsNoMemory }
    ensures fault { IfErr result (IsWorkFault bytes.now) }
{
    let mut read = None;
    let mut number = 1u32;
    let mut rest = bytes;
    'lines: while let Some((line, behind)) = first_line(rest, LineEnd::LineFeed) {
        read = with_line(alloc, read, line, number)?;
        number += 1;
        rest = behind;
    }
    match read {
        Some(lines) => Ok(Work { lines }),
        None => Err(WorkFault::BadWork { line: number }),
    }
}

/// What was read, with the line of this number behind it.
fn with_line(
    alloc: Global,
    read: Option<List<Line>>,
    line: &[u8],
    number: u32,
) -> Result<Option<List<Line>>, WorkFault>
    ensures found { IfOk result (WorkGoesOn read line.now) }
    ensures fault { IfErr result (CannotGoOn read line.now number) }
{
    if is_skipped(line) {
        return Ok(read);
    }
    let bad = WorkFault::BadWork { line: number };
    let Some(lines) = read else {
        return if is_header(line) {
            Ok(Some(List::of(Vec::new(alloc))))
        } else {
            Err(bad)
        };
    };
    let mut lines = lines.into_items();
    if lines.len() >= MOST_COMMANDS {
        return Err(bad);
    }
    let Some(next) = line_of(alloc, line)? else {
        return Err(bad);
    };
    lines.push(next)?;
    Ok(Some(List::of(lines)))
}

/// Whether the line is empty or a comment.
fn is_skipped(line: &[u8]) -> bool
    ensures { result ≡ is_skipped line.now }
{
    match line.first() {
        None => true,
        Some(b) => *b == b'#',
    }
}
