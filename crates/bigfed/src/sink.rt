//! Printing whole texts to a sink.
ghost use Rattle.std.specs.Prelude.{◌≡◌, ℕ, ◌≤◌, ◌++◌, List, OnOk, OnErr};
ghost use Rattle.base_core.specs.Faults.{HasRisen};
ghost use Rattle.work_text.specs.Outside.{IsTaken};

use work_text::{Failed, Sink};

/// Writes all of the text, unless the sink fails.
pub fn write_whole<K: Sink>(sink: &mut K, text: &[u8]) -> Result<(), Failed>
    ensures ok { OnOk result (IsTaken (K.taken sink.old) (K.taken sink.new) text.now) }
    ensures err { OnErr result ((front rest : List ℕ) × (text.now ≡ front ++ rest)
        × IsTaken (K.taken sink.old) (K.taken sink.new) front) }
    ensures whole { OnOk result (K.fault_count sink.new ≡ K.fault_count sink.old) }
    ensures later { K.fault_count sink.old ≤ K.fault_count sink.new }
    ensures fault { OnErr result (HasRisen (K.fault_count sink.old) (K.fault_count sink.new)) }
{
    let mut rest = text;
    'pieces: while !rest.is_empty() {
        let n = sink.write(rest)?;
        let (_, behind) = rest.split_at(n);
        rest = behind;
    }
    Ok(())
}
