//! Fills a window in memory and reads it, for `bench/windows` to time.
//!
//! The words are what is done and a number of rows: `add 1000` puts 1,000 rows in, one for each time and each of a key
//! of its own; `last 1000` then asks for each of them, and `chunk 1000` goes over all of them, 512 keys at a time. It
//! prints how many rows were put in or found.
#![tactic(auto)]

mod filling;
mod reading;

use filling::filled;
use reading::{count_by_chunks, count_by_keys};
use std::alloc::Global;
use std::env;
use std::process::ExitCode;
use window_core::WindowFault;

/// What is done with a window.
#[derive(Clone, Copy)]
enum Mode {
    Add,
    Last,
    Chunk,
}

fn main(rt: HostRuntime) -> ExitCode {
    let mut words = Vec::new(rt.alloc());
    if let Ok(args) = env::args(&rt) {
        for word in args.skip(1) {
            if words.push(word).is_err() {
                return ExitCode::from(4);
            }
        }
    }
    let Some((mode, count)) = task_of(words.as_slice()) else {
        return ExitCode::from(2);
    };
    let Ok(found) = run(rt.alloc(), mode, count) else {
        return ExitCode::from(4);
    };
    match println!(rt; "{found}") {
        Ok(()) => ExitCode::from(0),
        Err(_) => ExitCode::from(3),
    }
}

/// What the words ask for.
fn task_of(words: &[String]) -> Option<(Mode, u64)> {
    let [mode, count] = words else {
        return None;
    };
    let mode = match mode.as_str() {
        "add" => Mode::Add,
        "last" => Mode::Last,
        "chunk" => Mode::Chunk,
        _ => return None,
    };
    let Ok(count) = count.as_str().parse::<u64>() else {
        return None;
    };
    Some((mode, count))
}

/// How many rows were put in or found.
fn run(alloc: Global, mode: Mode, count: u64) -> Result<u64, WindowFault> {
    let window = filled(alloc, count)?;
    match mode {
        Mode::Add => Ok(count),
        Mode::Last => count_by_keys(alloc, &window, count),
        Mode::Chunk => count_by_chunks(alloc, &window, count),
    }
}
