//! The program over any shelf and any sink.
ghost use Rattle.std.specs.Prelude.{◌≡◌, ◌≤◌, ◌⊎◌, ℕ, List, [], map, string_bytes, codes, ◌↔◌, IsTrue, IfOk, IsErrOf, MatchOption};
ghost use Rattle.base_core.specs.Faults.{HasRisen};
ghost use Rattle.work_text.specs.Outside.{IsTaken};
ghost use Rattle.bigfed.specs.Program.{Serves, IsAnswerTo, IsPrintable, IsPrinted, replay_of, answer_text, answer_status};

use crate::answer::Answer;
use crate::replay::replay;
use crate::shelf::{ShelfFault, gather, read_whole};
use crate::sink::write_whole;
use base_core::{Text, Want};
use std::alloc::Global;
use work_text::{Doc, Failed, Shelf, Sink, WorkFault, read_work};

/// How many bytes a work may have.
const MOST_WORK_BYTES: usize = 1_048_576;

/// What the program ends with.
///
/// 0: every command had its Ok. 1: some command was refused. 2: usage, or the work was refused. 3: a fault of the
/// shelf or the sink. 4: want of memory.
#[derive(Clone, Copy, Debug, PartialEq, Eq)]
pub struct Status {
    pub code: u8,
}

/// The program: the words after its name, the documents it may read, and where it prints to.
pub fn bigfed<S: Shelf, K: Sink>(
    alloc: Global,
    words: &[String],
    shelf: &mut S,
    sink: &mut K,
) -> Status
    ensures serves { Serves (map string_bytes words.now) (record {
      told = S.documents shelf.old;
      shelf_faults_before = S.fault_count shelf.old;
      shelf_faults = S.fault_count shelf.new;
      taken_before = K.taken sink.old;
      taken = K.taken sink.new;
      sink_faults_before = K.fault_count sink.old;
      sink_faults = K.fault_count sink.new;
    }) result.code }
    ensures shelf_same { S.documents shelf.new ≡ S.documents shelf.old }
    ensures shelf_later { S.fault_count shelf.old ≤ S.fault_count shelf.new }
    ensures sink_later { K.fault_count sink.old ≤ K.fault_count sink.new }
{
    replay_command(alloc, words, shelf, sink)
}

/// The command `replay WORK`: runs the work of that name and prints its report.
pub fn replay_command<S: Shelf, K: Sink>(
    alloc: Global,
    words: &[String],
    shelf: &mut S,
    sink: &mut K,
) -> Status
    ensures serves { Serves (map string_bytes words.now) (record {
      told = S.documents shelf.old;
      shelf_faults_before = S.fault_count shelf.old;
      shelf_faults = S.fault_count shelf.new;
      taken_before = K.taken sink.old;
      taken = K.taken sink.new;
      sink_faults_before = K.fault_count sink.old;
      sink_faults = K.fault_count sink.new;
    }) result.code }
    ensures shelf_same { S.documents shelf.new ≡ S.documents shelf.old }
    ensures shelf_later { S.fault_count shelf.old ≤ S.fault_count shelf.new }
    ensures sink_later { K.fault_count sink.old ≤ K.fault_count sink.new }
{
    match answer_to(alloc, words, shelf) {
        Ok(answer) => print(alloc, &answer, sink),
        Err(Want::NoMemory) => Status { code: 4 },
    }
}

/// What the words ask for, from the usage text to a whole report.
fn answer_to<S: Shelf>(alloc: Global, words: &[String], shelf: &mut S) -> Result<Answer, Want>
    ensures cause { IfOk result (IsAnswerTo (map string_bytes words.now) (S.documents shelf.old)
        (S.fault_count shelf.old) (S.fault_count shelf.new)) }
    ensures printable { IfOk result IsPrintable }
    ensures same { S.documents shelf.new ≡ S.documents shelf.old }
    ensures later { S.fault_count shelf.old ≤ S.fault_count shelf.new }
{
    let Some(name) = work_named(words) else {
        return Ok(Answer::Usage);
    };
    let name = Text::of(alloc, name)?;
    match run_named(alloc, &name, shelf) {
        Ok(answer) => Ok(answer),
        Err(ShelfFault::Failed) => Ok(Answer::ShelfFault {
            count: shelf.faults(),
        }),
        Err(ShelfFault::NoMemory) => Err(Want::NoMemory),
    }
}

/// The name of the work, where the words have the one form `replay WORK`.
fn work_named(words: &[String]) -> Option<&str>
    ensures { MatchOption result ((name : List ℕ) → map string_bytes words.now ≡ replay_of name → ⊥)
        (λ name. map string_bytes words.now ≡ replay_of name.now) }
{
    match words {
        [command, name] => {
            if is_replay(command.as_str()) {
                Some(name.as_str())
            } else {
                None
            }
        }
        _ => None,
    }
}

fn is_replay(word: &str) -> bool
    ensures { IsTrue result ↔ (word.now ≡ codes "replay") }
{
    word == "replay"
}

/// Runs the work of this name.
fn run_named<S: Shelf>(alloc: Global, name: &Text, shelf: &mut S) -> Result<Answer, ShelfFault>
    ensures cause { IfOk result (IsAnswerTo (replay_of name.now) (S.documents shelf.old)
        (S.fault_count shelf.old) (S.fault_count shelf.new)) }
    ensures printable { IfOk result IsPrintable }
    ensures fault { IsErrOf result ShelfFault.Failed → HasRisen (S.fault_count shelf.old) (S.fault_count shelf.new) }
    ensures same { S.documents shelf.new ≡ S.documents shelf.old }
    ensures later { S.fault_count shelf.old ≤ S.fault_count shelf.new }
{
    let bytes = match read_whole(alloc, shelf, name, MOST_WORK_BYTES)? {
        Doc::Missing => return Ok(Answer::NoWork),
        Doc::TooLarge => return Ok(Answer::WorkTooLarge),
        Doc::Bytes(bytes) => bytes,
    };
    let work = match read_work(alloc, bytes.items()) {
        Ok(work) => work,
        Err(WorkFault::BadWork { line }) => return Ok(Answer::BadWork { line }),
        Err(WorkFault::NoMemory) => return Err(ShelfFault::NoMemory),
    };
    let Some(docs) = gather(alloc, shelf, &work)? else {
        return Ok(Answer::DocumentsTooLarge);
    };
    let report = replay(alloc, &work, &docs)?;
    Ok(Answer::Ran { work, report })
}

/// Prints an answer: its whole text, a front of it where the sink fails, or nothing where memory runs out.
fn print<K: Sink>(alloc: Global, answer: &Answer, sink: &mut K) -> Status
    requires { IsPrintable answer.now }
    ensures printed { IsPrinted (answer_text answer.now) (answer_status answer.now) (K.taken sink.old) (K.taken sink.new)
        (K.fault_count sink.old) (K.fault_count sink.new) result.code
        ⊎ ((result.code ≡ 4) × IsTaken (K.taken sink.old) (K.taken sink.new) []
        × (K.fault_count sink.new ≡ K.fault_count sink.old)) }
    ensures later { K.fault_count sink.old ≤ K.fault_count sink.new }
{
    let mut text = Vec::new(alloc);
    if answer.write(alloc, &mut text).is_err() {
        return Status { code: 4 };
    }
    let code = answer.status();
    match write_whole(sink, text.as_slice()) {
        Ok(()) => Status { code },
        Err(Failed) => Status { code: 3 },
    }
}
