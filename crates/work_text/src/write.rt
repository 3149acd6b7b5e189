//! Writing reports: a function for each part of the text, from the whole down to a line.
//!
//! Each writes its text at the end of a draft. After a want of memory a private one may have left a part of it there;
//! `write_report` cuts it off again.
ghost use Rattle.std.specs.Prelude.{◌≡◌, ◌+◌, ◌<◌, ◌^◌, ◌∷◌, ◌++◌, length, OnOk, OnErr};
ghost use Rattle.work_text.specs.Report.{report_text, sessions_text, session_text, commands_of, commands_text, command_text, verb, outcome_text, answer_text, header, history_text, commits_text, commit_text};

use crate::report::{Outcome, RunReport};
use crate::work::{Command, Line, Work};
use base_core::{List, Text, Want};
use bgp_model::{Draft, Table, Word};
use change_model::Origin;
use std::alloc::Global;
use std::mem;

/// Appends the printed text of a report on a work.
pub fn write_report(
    alloc: Global,
    report: &RunReport,
    work: &Work,
    out: &mut Vec<u8>,
) -> Result<(), Want>
    requires { report.now.opened + length report.now.origins < 2 ^ 64 }
    ensures ok { OnOk result (out.new.items ≡ out.old.items ++ report_text report.now work.now) }
    ensures err { OnErr result (out.new.items ≡ out.old.items) }
{
    let mut draft = Draft::behind(mem::replace(out, Vec::new(alloc)));
    match write_parts(alloc, report, work, &mut draft) {
        Ok(()) => {
            *out = draft.whole();
            Ok(())
        }
        Err(want) => {
            *out = draft.cut_back();
            Err(want)
        }
    }
}

fn write_parts(
    alloc: Global,
    report: &RunReport,
    work: &Work,
    draft: &mut Draft,
) -> Result<(), Want>
    requires { report.now.opened + length report.now.origins < 2 ^ 64 }
    ensures text { OnOk result (draft.new.text ≡ draft.old.text ++ report_text report.now work.now) }
    ensures kept { draft.new.kept ≡ draft.old.kept }
{
    let opened = report.opened;
    append(format!(in alloc; "opened {opened}\n")?.as_str(), draft)?;
    write_sessions(alloc, work.lines.items(), report.outcomes.items(), draft)?;
    write_history(alloc, opened, report.origins.items(), draft)
}

fn append(text: &str, draft: &mut Draft) -> Result<(), Want>
    ensures text { OnOk result (draft.new.text ≡ draft.old.text ++ text.now) }
    ensures kept { draft.new.kept ≡ draft.old.kept }
{
    draft.append(text.as_bytes())
}

fn write_sessions(
    alloc: Global,
    lines: &[Line],
    sessions: &[List<Outcome>],
    draft: &mut Draft,
) -> Result<(), Want>
    ensures text { OnOk result (draft.new.text ≡ draft.old.text ++ sessions_text 1 lines.now sessions.now) }
    ensures kept { draft.new.kept ≡ draft.old.kept }
{
    for (before, outcomes) in sessions.iter().enumerate() {
        write_session(alloc, before as u64 + 1, lines, outcomes.items(), draft)?;
    }
    Ok(())
}

/// Nothing for a session without outcomes.
fn write_session(
    alloc: Global,
    session: u64,
    lines: &[Line],
    outcomes: &[Outcome],
    draft: &mut Draft,
) -> Result<(), Want>
    ensures text { OnOk result (draft.new.text ≡ draft.old.text ++ session_text session (commands_of session lines.now) outcomes.now) }
    ensures kept { draft.new.kept ≡ draft.old.kept }
{
    if outcomes.is_empty() {
        return Ok(());
    }
    append(format!(in alloc; "session {session}\n")?.as_str(), draft)?;
    write_commands(alloc, session, lines, outcomes, draft)
}

/// The commands of a session, each with its outcome.
fn write_commands(
    alloc: Global,
    session: u64,
    lines: &[Line],
    outcomes: &[Outcome],
    draft: &mut Draft,
) -> Result<(), Want>
    ensures text { OnOk result (draft.new.text ≡ draft.old.text ++ commands_text 1 (commands_of session lines.now) outcomes.now) }
    ensures kept { draft.new.kept ≡ draft.old.kept }
{
    let mut before = 0;
    for line in lines {
        if u64::from(line.session) != session {
            continue;
        }
        let Some(outcome) = outcomes.get(before) else {
            return Ok(());
        };
        before += 1;
        write_command(alloc, before as u64, &line.command, outcome, draft)?;
    }
    Ok(())
}

fn write_command(
    alloc: Global,
    place: u64,
    command: &Command,
    outcome: &Outcome,
    draft: &mut Draft,
) -> Result<(), Want>
    ensures text { OnOk result (draft.new.text ≡ draft.old.text ++ command_text place command.now outcome.now) }
    ensures kept { draft.new.kept ≡ draft.old.kept }
{
    let verb = verb_of(command);
    append(format!(in alloc; "{place} {verb} ")?.as_str(), draft)?;
    write_outcome(alloc, outcome, draft)
}

fn verb_of(command: &Command) -> &'static str
    ensures { result.now ≡ verb command.now }
{
    match command {
        Command::Load(_) => "load",
        Command::Unload(_) => "unload",
        Command::Query(_) | Command::QueryFile(_) => "query",
    }
}

fn write_outcome(alloc: Global, outcome: &Outcome, draft: &mut Draft) -> Result<(), Want>
    ensures text { OnOk result (draft.new.text ≡ draft.old.text ++ outcome_text outcome.now) }
    ensures kept { draft.new.kept ≡ draft.old.kept }
{
    match outcome {
        Outcome::Changed { time } => append(format!(in alloc; "time {time}\n")?.as_str(), draft),
        Outcome::Answered {
            time,
            columns,
            rows,
        } => write_answer(alloc, *time, columns.items(), rows, draft),
        Outcome::NoDocument => append("refused no document\n", draft),
        Outcome::DocumentTooLarge => append("refused document too large\n", draft),
        Outcome::BadLine { line } => append(
            format!(in alloc; "refused line {line}\n")?.as_str(),
            draft,
        ),
        Outcome::TermTooLong { line } => append(
            format!(in alloc; "refused term too long line {line}\n")?.as_str(),
            draft,
        ),
        Outcome::TooManyStatements { line } => append(
            format!(in alloc; "refused too many statements line {line}\n")?.as_str(),
            draft,
        ),
        Outcome::LabelInRemoval { line } => append(
            format!(in alloc; "refused label in removal line {line}\n")?.as_str(),
            draft,
        ),
        Outcome::QueryAt { place } => append(
            format!(in alloc; "refused query at {place}\n")?.as_str(),
            draft,
        ),
        Outcome::QueryLeftOut { place, word } => write_left_out(alloc, *place, *word, draft),
        Outcome::TooManyPatterns => append("refused too many patterns\n", draft),
        Outcome::TooManyRows { time } => append(
            format!(in alloc; "refused too many rows time {time}\n")?.as_str(),
            draft,
        ),
    }
}

fn write_left_out(alloc: Global, place: u32, word: Word, draft: &mut Draft) -> Result<(), Want>
    ensures text { OnOk result (draft.new.text ≡ draft.old.text ++ outcome_text (Outcome.QueryLeftOut place word)) }
    ensures kept { draft.new.kept ≡ draft.old.kept }
{
    let word = word.text();
    append(
        format!(in alloc; "refused query left out {word} at {place}\n")?.as_str(),
        draft,
    )
}

fn write_answer(
    alloc: Global,
    time: u64,
    columns: &[Text],
    rows: &Table,
    draft: &mut Draft,
) -> Result<(), Want>
    ensures text { OnOk result (draft.new.text ≡ draft.old.text ++ answer_text time columns.now rows.now) }
    ensures kept { draft.new.kept ≡ draft.old.kept }
{
    let count = rows.count();
    append(
        format!(in alloc; "time {time} rows {count}\n")?.as_str(),
        draft,
    )?;
    write_header(columns, draft)?;
    draft.push(b'\n')?;
    rows.write_lines(alloc, draft)
}

/// The names of the columns, without an end of line.
fn write_header(columns: &[Text], draft: &mut Draft) -> Result<(), Want>
    ensures text { OnOk result (draft.new.text ≡ draft.old.text ++ header columns.now) }
    ensures kept { draft.new.kept ≡ draft.old.kept }
{
    let Some((first, others)) = columns.split_first() else {
        return Ok(());
    };
    write_name(first, draft)?;
    for name in others {
        draft.push(b'\t')?;
        write_name(name, draft)?;
    }
    Ok(())
}

fn write_name(name: &Text, draft: &mut Draft) -> Result<(), Want>
    ensures text { OnOk result (draft.new.text ≡ draft.old.text ++ 63 ∷ name.now) }
    ensures kept { draft.new.kept ≡ draft.old.kept }
{
    draft.push(b'?')?;
    append(name.text(), draft)
}

fn write_history(
    alloc: Global,
    opened: u64,
    origins: &[Origin],
    draft: &mut Draft,
) -> Result<(), Want>
    requires { opened + length origins.now < 2 ^ 64 }
    ensures text { OnOk result (draft.new.text ≡ draft.old.text ++ history_text opened origins.now) }
    ensures kept { draft.new.kept ≡ draft.old.kept }
{
    let count = origins.len();
    append(format!(in alloc; "history {count}\n")?.as_str(), draft)?;
    write_commits(alloc, opened, origins, draft)
}

/// The commits of a run over a history of so many changes.
fn write_commits(
    alloc: Global,
    opened: u64,
    origins: &[Origin],
    draft: &mut Draft,
) -> Result<(), Want>
    requires { opened + length origins.now < 2 ^ 64 }
    ensures text { OnOk result (draft.new.text ≡ draft.old.text ++ commits_text (opened + 1) origins.now) }
    ensures kept { draft.new.kept ≡ draft.old.kept }
{
    for (before, origin) in origins.iter().enumerate() {
        write_commit(alloc, opened + before as u64 + 1, origin, draft)?;
    }
    Ok(())
}

fn write_commit(alloc: Global, time: u64, origin: &Origin, draft: &mut Draft) -> Result<(), Want>
    ensures text { OnOk result (draft.new.text ≡ draft.old.text ++ commit_text time origin.now) }
    ensures kept { draft.new.kept ≡ draft.old.kept }
{
    let session = origin.session;
    let command = origin.command;
    append(
        format!(in alloc; "{time} {session} {command}\n")?.as_str(),
        draft,
    )
}
