//! A shelf in memory, for tests.
ghost use Rattle.std.specs.Prelude.{◌≡◌, ◌≤◌, length, take, min, Some, None, MatchOption};
ghost use Rattle.work_text.specs.Outside.{document_named};
ghost use Rattle.work_text.specs.Documents.{bytes_at, left_at};

use crate::fault_plan::FaultPlan;
use crate::outside::{Failed, Shelf};
use base_core::{List, Text, Want};
use std::alloc::Global;

/// Documents in memory. It tells them, and chosen calls of `fetch` and `read` fail.
#[derive(Debug, Drop)]
pub struct MemoryShelf {
    /// Names and bytes.
    documents: Vec<(Text, List<u8>)>,
    /// Which document is being read, from 0, and how far; one past the last while none is.
    number: usize,
    at: usize,
    plan: FaultPlan,
    ghost within: { at ≤ length (bytes_at documents.items number) },
}

impl MemoryShelf {
    ghost use Rattle.std.specs.Prelude.{◌≡◌, ◌+◌, ◌-◌, ◌^◌, ◌<◌, [], length, Some, IfOk};
    ghost use Rattle.std.specs.List.{zip};
    ghost use Rattle.work_text.specs.Documents.{left_at};
    ghost use Rattle.work_text.specs.Memory.{IsFresh};
    ghost use Rattle.work_text.specs.Plans.{shelf_plan};

    /// A shelf whose k-th document has the k-th name. The calls of `fetch` and `read` are counted together from 1,
    /// and those with a number in `fails` fail.
    pub fn make(
        alloc: Global,
        names: List<Text>,
        documents: List<List<u8>>,
        fails: Vec<u64>,
    ) -> Result<MemoryShelf, Want>
        requires { length names ≡ length documents }
        ensures documents { IfOk result (λ made. ⟦<MemoryShelf as Shelf>⟧.documents made ≡ Some (zip names documents)) }
        ensures left { IfOk result (λ made. ⟦<MemoryShelf as Shelf>⟧.left made ≡ Some []) }
        ensures faults { IfOk result (λ made. ⟦<MemoryShelf as Shelf>⟧.fault_count made ≡ 0) }
        ensures plan { IfOk result (λ made. IsFresh fails.items (shelf_plan made)) }
    {
        let documents: Vec<(Text, List<u8>)> = names
            .into_items()
            .into_iter()
            .zip(documents.into_items())
            .collect(alloc)?;
        let number = documents.len();
        Ok(MemoryShelf {
            documents,
            number,
            at: 0,
            plan: FaultPlan::new(fails),
        })
    }

    /// What is left of the document that is being read.
    fn rest(&self) -> &[u8]
        ensures rest { result.now ≡ left_at self.now.documents.items self.now.number self.now.at }
        ensures short { self.now.at + length result.now < 2 ^ 64 }
    {
        match self.documents.get(self.number) {
            Some((_, bytes)) => &bytes.items()[self.at..],
            None => &[],
        }
    }
}

impl Shelf for MemoryShelf {
    ghost use Rattle.std.specs.Prelude.{◌≡◌, ◌≤◌, ◌<◌, Some, length, take, IfOk, OnOk};
    ghost use Rattle.base_core.specs.Faults.{IsCounted};
    ghost use Rattle.work_text.specs.Memory.{IsPlanned};
    ghost use Rattle.work_text.specs.Outside.{IsFetched, IsRead};
    ghost use Rattle.work_text.specs.Plans.{shelf_plan, shelf_documents, shelf_left};

    ghost documents = { λ shelf. Some (shelf_documents shelf) };

    ghost left = { λ shelf. Some (shelf_left shelf) };

    ghost fault_count = { λ shelf. (shelf_plan shelf).faults };

    fn faults(&self) -> u64 {
        self.plan.faults()
    }

    fn fetch(&mut self, name: &Text) -> Result<bool, Failed>
        ensures planned { IsPlanned (shelf_plan self.old) (shelf_plan self.new) result }
        ensures same { shelf_documents self.new ≡ shelf_documents self.old }
        ensures counted { IsCounted (shelf_plan self.old).faults (shelf_plan self.new).faults result }
        ensures kept { OnOk result ((shelf_plan self.new).faults ≡ (shelf_plan self.old).faults) }
        ensures found { IfOk result (λ found. IsFetched (Some (shelf_documents self.old)) name.now found (Some (shelf_left self.new))) }
    {
        self.plan.call()?;
        let Some(number) = number_of(self.documents.as_slice(), name) else {
            return Ok(false);
        };
        self.number = number;
        self.at = 0;
        Ok(true)
    }

    fn read(&mut self, out: &mut [u8]) -> Result<usize, Failed>
        requires { 0 < length out.old }
        ensures planned { IsPlanned (shelf_plan self.old) (shelf_plan self.new) result }
        ensures same { shelf_documents self.new ≡ shelf_documents self.old }
        ensures counted { IsCounted (shelf_plan self.old).faults (shelf_plan self.new).faults result }
        ensures kept { OnOk result ((shelf_plan self.new).faults ≡ (shelf_plan self.old).faults) }
        ensures within { IfOk result (λ n. n ≤ length out.new) }
        ensures bytes { IfOk result (λ n. IsRead (Some (shelf_left self.old)) (Some (shelf_left self.new)) (take n out.new)) }
    {
        self.plan.call()?;
        let count = copy_front(self.rest(), out);
        self.at += count;
        Ok(count)
    }
}

/// The first document of that name.
fn number_of(documents: &[(Text, List<u8>)], name: &Text) -> Option<usize>
    ensures { MatchOption result (document_named documents.now name.now ≡ None)
        (λ number. document_named documents.now name.now ≡ Some (bytes_at documents.now number)) }
{
    for (number, document) in documents.iter().enumerate() {
        if document.0 == *name {
            return Some(number);
        }
    }
    None
}

/// Copies as many bytes as there are and have room, and answers how many.
fn copy_front(bytes: &[u8], out: &mut [u8]) -> usize
    ensures count { result ≡ min (length bytes.now) (length out.old) }
    ensures copied { take result out.new ≡ take result bytes.now }
{
    let count = bytes.len().min(out.len());
    out[..count].copy_from_slice(&bytes[..count]);
    count
}
