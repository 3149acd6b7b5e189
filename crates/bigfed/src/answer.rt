//! All that the program can print, and what it ends with.
ghost use Rattle.std.specs.Prelude.{◌≡◌, ◌++◌, ◌+◌, ◌-◌, ◌<◌, ◌^◌, length, OnOk};
ghost use Rattle.bigfed.specs.Program.{answer_text, answer_status, is_done, session_done, all_done, IsPrintable};

use base_core::{List, Want};
use std::alloc::Global;
use work_text::{Outcome, RunReport, Work, write_report};

/// What one call of the program answers.
#[derive(Debug, Drop)]
pub enum Answer {
    /// The words have no form of a command.
    Usage,
    NoWork,
    WorkTooLarge,
    BadWork { line: u32 },
    /// The documents that the work needs are too large together.
    DocumentsTooLarge,
    ShelfFault { count: u64 },
    Ran { work: Work, report: RunReport },
}

impl Answer {
    /// Appends the printed text.
    pub fn write(&self, alloc: Global, out: &mut Vec<u8>) -> Result<(), Want>
        requires { IsPrintable self.now }
        ensures { OnOk result (out.new.items ≡ out.old.items ++ answer_text self.now) }
    {
        match self {
            Answer::Usage => out.extend_from_slice(b"usage: bigfed replay WORK\n")?,
            Answer::NoWork => out.extend_from_slice(b"no work\n")?,
            Answer::WorkTooLarge => out.extend_from_slice(b"work too large\n")?,
            Answer::BadWork { line } => {
                let text = format!(in alloc; "bad work line {line}\n")?;
                out.extend_from_slice(text.as_bytes())?;
            }
            Answer::DocumentsTooLarge => out.extend_from_slice(b"documents too large\n")?,
            Answer::ShelfFault { count } => {
                let text = format!(in alloc; "shelf fault {count}\n")?;
                out.extend_from_slice(text.as_bytes())?;
            }
            Answer::Ran { work, report } => write_report(alloc, report, work, out)?,
        }
        Ok(())
    }

    /// The status that the program ends with where nothing goes wrong in printing.
    pub fn status(&self) -> u8
        ensures { result ≡ answer_status self.now }
    {
        match self {
            Answer::Usage
            | Answer::NoWork
            | Answer::WorkTooLarge
            | Answer::BadWork { .. }
            | Answer::DocumentsTooLarge => 2,
            Answer::ShelfFault { .. } => 3,
            Answer::Ran { report, .. } => {
                if all_done(report.outcomes.items()) {
                    0
                } else {
                    1
                }
            }
        }
    }
}

/// Whether every command had its Ok.
fn all_done(outcomes: &[List<Outcome>]) -> bool
    ensures { result ≡ all_done outcomes.now }
{
    for of_session in outcomes {
        if !session_done(of_session.items()) {
            return false;
        }
    }
    true
}

fn session_done(outcomes: &[Outcome]) -> bool
    ensures { result ≡ session_done outcomes.now }
{
    outcomes.iter().all(is_done)
}

fn is_done(outcome: &Outcome) -> bool
    ensures { result ≡ is_done outcome.now }
{
    matches!(outcome, Outcome::Changed { .. } | Outcome::Answered { .. })
}
