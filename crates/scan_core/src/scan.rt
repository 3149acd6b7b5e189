//! The state of a scan.
ghost use Rattle.std.specs.Prelude.{◌≡◌, ◌↔◌, ◌+◌, ◌<◌, ◌++◌, ◌∷◌, ℕ, List, [], length, true, false, None, Some, IfErr, OnOk, OnErr, IsOk, IsTrue};
ghost use Rattle.base_core.specs.Lists.{Has};
ghost use Rattle.fed_bytes.specs.Keys.{IsIn, IsBeforeEnd};
ghost use Rattle.scan_core.specs.Needs.{Needs};
ghost use Rattle.scan_core.specs.Scans.{IsScan, IsStarted, IsFitting, Takes, AreAgain, lost, asked_after};
ghost use Rattle.scan_core.specs.Parts.{GoesOn, read_end};
ghost use Rattle.scan_core.specs.declared.fault.ScanFault.{ScanFault as AnyFault};

use crate::fault::ScanFault;
use crate::need::Need;
use crate::retired::Retired;
use base_core::Want;
use fed_bytes::{Key, Span};
use route_core::Route;
use row_core::{Chunk, Index, Reply, Row, Rows};
use std::alloc::Global;
use std::marker::Model;
use std::snapshot::Snapshot;

/// A span of one index that is read at one time. What a contract sees stands in `specs/Scans.antt`.
#[derive(Drop)]
pub struct Scan {
    index: Index,
    time: u64,
    whole: Snapshot<Span>,
    /// What is left. Its left end stays where nothing is.
    rest: Span,
    done: bool,
    asked: Option<u32>,
    retired: Retired,
    behind: Option<u64>,
    rows: Vec<Row>,
}

impl Model for Scan {
    ghost use Rattle.scan_core.specs.Needs.{Needs};
    ghost use Rattle.scan_core.specs.Scans.{Scanning};

    ghost Value = { Scanning };

    ghost use Rattle.scan_core.specs.Needs.{Needs};
    ghost use Rattle.scan_core.specs.Scans.{IsScan};

    ghost view = { λ s. record { index = s.index; time = s.time; whole = s.whole.value; rest = s.rest; done = s.done; asked = s.asked; retired = s.retired; behind = s.behind; rows = s.rows.items } };

    ghost invariant = { λ s. IsScan (record { index = s.index; time = s.time; whole = s.whole.value; rest = s.rest; done = s.done; asked = s.asked; retired = s.retired; behind = s.behind; rows = s.rows.items }) };
}

impl Scan {
    /// A scan of the span in this index at this time.
    pub fn start(alloc: Global, index: Index, span: Span, time: u64) -> Scan
        ensures { IsStarted index span time result }
    {
        Scan {
            index,
            time,
            whole: Snapshot::of(&span),
            done: !span.contains(span.left.bytes()),
            rest: span,
            asked: None,
            retired: Retired::none(),
            behind: None,
            rows: Vec::new(alloc),
        }
    }

    /// Where the scan goes on, by what this route knows.
    pub fn need(&self, route: &Route) -> Need
        ensures { Needs self.now route.now.locators result }
    {
        if self.done {
            return Need::Done;
        }
        match self.behind {
            Some(_) => Need::Commit,
            None => self.room(route),
        }
    }

    // Whether a service or the place is needed, for a scan that isn't done and isn't behind.
    fn room(&self, route: &Route) -> Need
        requires left { self.now.done ≡ false }
        requires fed { self.now.behind ≡ None }
        ensures { Needs self.now route.now.locators result }
    {
        match route.known(self.index, self.rest.left.bytes()) {
            Some(locator) => Need::Service(locator.service),
            None => Need::Place,
        }
    }

    /// Where the next part begins.
    pub fn at(&self) -> &Key
        ensures { result.now ≡ self.now.rest.left }
    {
        &self.rest.left
    }

    /// The keys that are left. Once nothing is, it says nothing.
    pub fn rest(&self) -> &Span
        ensures { result.now ≡ self.now.rest }
    {
        &self.rest
    }

    pub fn index(&self) -> Index
        ensures { result ≡ self.now.index }
    {
        self.index
    }

    /// The time at which the span is read.
    pub fn time(&self) -> u64
        ensures { result ≡ self.now.time }
    {
        self.time
    }

    pub fn is_done(&self) -> bool
        ensures { result ≡ self.now.done }
    {
        self.done
    }

    /// The number that was asked last, until its answer ends.
    pub fn asked_number(&self) -> Option<u32>
        ensures { result ≡ self.now.asked }
    {
        self.asked
    }

    /// Up to where the shard that was asked is behind, until it was fed.
    pub fn behind_upto(&self) -> Option<u64>
        ensures { result ≡ self.now.behind }
    {
        self.behind
    }

    /// For proofs: what is so of every scan.
    pub fn is_sound(&self)
        ensures { IsScan self.now }
    {
        let _rows = &self.rows;
    }

    /// Whether the shard of this number may be asked: no other is being asked, and it wasn't found retired.
    #[tactic(auto, using(crate::proofs::Distinct::not_among))]
    pub fn may_ask(&self, number: u32) -> bool
        ensures free { IsTrue result → self.now.asked ≡ None }
        ensures other { IsTrue result → ¬ Has self.now.retired number }
    {
        self.asked.is_none() && !self.retired.has(number)
    }

    /// The shard of this number, which is listed, is asked for what is left.
    pub fn ask(&mut self, number: u32)
        requires free { self.old.asked ≡ None }
        requires other { ¬ Has self.old.retired number }
        ensures { self.new ≡ record self.old { asked = Some number } }
    {
        self.asked = Some(number);
    }

    /// Takes the reply of a shard. After an `Err` nothing has changed.
    pub fn reply(&mut self, reply: Reply) -> Result<(), Want>
        requires left { self.old.done ≡ false }
        requires fits { IsFitting self.old.rest reply }
        ensures takes { OnOk result (Takes self.old reply self.new) }
        ensures same { OnErr result (self.new ≡ self.old) }
    {
        let Reply { part, chunk } = reply;
        let Chunk { rows, next } = chunk;
        let mut items = rows.into_items();
        self.rows.append(&mut items)?;
        self.asked = asked_after(&next, self.asked);
        self.done = go_on(&mut self.rest, read_end(next, part.right));
        Ok(())
    }

    /// The number was found retired. Where it is the one that was asked last it counts, and the eighth ends the scan. Any
    /// other was a stale one that this scan hadn't asked for, and doesn't count.
    pub fn gone(&mut self, number: u32) -> Result<(), ScanFault>
        ensures stale { ¬ (self.old.asked ≡ Some number) → IsOk result × (self.new ≡ self.old) }
        ensures counted { self.old.asked ≡ Some number → OnOk result (self.new ≡ lost number self.old) }
        ensures eighth { self.old.asked ≡ Some number → (IsOk result ↔ (¬ (length self.old.retired ≡ 7))) }
        ensures again { IfErr result (λ fault. (numbers : List ℕ) × (fault ≡ AnyFault.Again numbers) × AreAgain self.old.retired number numbers) }
        ensures err { OnErr result (self.new ≡ self.old) }
    {
        if self.asked != Some(number) {
            return Ok(());
        }
        self.lose(number)
    }

    // The number that was asked last was found retired.
    fn lose(&mut self, number: u32) -> Result<(), ScanFault>
        requires { self.old.asked ≡ Some number }
        ensures counted { OnOk result (self.new ≡ lost number self.old) }
        ensures eighth { IsOk result ↔ (¬ (length self.old.retired ≡ 7)) }
        ensures again { IfErr result (λ fault. (numbers : List ℕ) × (fault ≡ AnyFault.Again numbers) × AreAgain self.old.retired number numbers) }
        ensures err { OnErr result (self.new ≡ self.old) }
    {
        match self.retired.put(number) {
            Some(numbers) => Err(ScanFault::Again { numbers }),
            None => {
                self.asked = None;
                Ok(())
            }
        }
    }

    /// The shard that was asked has rows up to a time below this scan's.
    pub fn behind(&mut self, upto: u64)
        requires below { upto < self.old.time }
        ensures { self.new ≡ record self.old { behind = Some upto } }
    {
        self.behind = Some(upto);
    }

    /// The shard that was asked was fed, and is to be asked once more.
    pub fn fed(&mut self)
        ensures { self.new ≡ record self.old { behind = None } }
    {
        self.behind = None;
    }

    /// The rows of all replies.
    pub fn rows(self) -> Rows
        ensures { result ≡ self.rows }
    {
        Rows::of(self.rows)
    }
}

// The number that is asked for further.
fn asked_after(next: &Option<Key>, asked: Option<u32>) -> Option<u32>
    ensures { result ≡ asked_after next.now asked }
{
    match next {
        Some(_) => asked,
        None => None,
    }
}

// What was read ends before the next key, if there is one, else where its part ends.
fn read_end(next: Option<Key>, right: Option<Key>) -> Option<Key>
    ensures { result ≡ read_end next right }
{
    match next {
        Some(next) => Some(next),
        None => right,
    }
}

// Goes on where this ends that was read, and answers whether nothing is left.
fn go_on(rest: &mut Span, end: Option<Key>) -> bool
    ensures { GoesOn rest.old end rest.new result }
{
    let Some(end) = end else {
        return true;
    };
    if !rest.contains(end.bytes()) {
        return true;
    }
    rest.left = end;
    false
}
