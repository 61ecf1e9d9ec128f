//! The outputs of a step as entries of the batch.

ghost use Rattle.std.specs.Prelude.{◌≡◌, ℕ, ◌+◌, ◌≤◌, ◌<◌, ◌^◌, List, map};
ghost use Rattle.avm_model.specs.Machine.{out_send};
ghost use Rattle.avm_model.specs.Parts.{IsOrdinal};
ghost use Rattle.avm_model.specs.Reference.{made_of};
ghost use Rattle.guest_machine.specs.Outs.{line_list, halt_list};
ghost use Rattle.record_batch.specs.Batch.{batch_size, HasPlace};
ghost use Rattle.record_model.specs.Standing.{FitAll};
ghost use Rattle.record_parts.specs.Outs.{with_made};

use guest_machine::{Line, Machine, Sent};
use log_entry::Content;
use record_batch::Batch;

/// Adds the entry of a line, where there is one.
pub fn put_line(batch: &mut Batch, machine: &Machine, line: &Line)
    requires fits { FitAll (map (made_of machine.now.state) (line_list line.now)) }
    requires short { line.now.len ≤ 128 }
    requires number { IsOrdinal batch.old.next }
    requires place { HasPlace 256 batch.old }
    ensures value { (pages : List ℕ) → batch.new ≡ with_made batch.old machine.now.state pages (map (made_of machine.now.state) (line_list line.now)) }
    ensures size { batch_size batch.new ≤ batch_size batch.old + 256 }
    ensures least { batch.old.next ≤ batch.new.next }
    ensures most { batch.new.next ≤ batch.old.next + 1 }
{
    if line.len > 0 {
        let len = line.len as usize;
        batch.add(Content::Out {
            count: machine.count(),
            bytes: &line.bytes[..len],
        });
    }
}

/// Adds the entry of a message that was sent, where there is one. Its payload is the front of the transmit window.
pub fn put_sent(batch: &mut Batch, machine: &Machine, sent: Option<Sent>)
    requires fits { FitAll (map (made_of machine.now.state) (out_send sent machine.now.state.devices.window)) }
    requires number { IsOrdinal batch.old.next }
    requires place { HasPlace 2048 batch.old }
    ensures value { (pages : List ℕ) → batch.new ≡ with_made batch.old machine.now.state pages (map (made_of machine.now.state) (out_send sent machine.now.state.devices.window)) }
    ensures size { batch_size batch.new ≤ batch_size batch.old + 2048 }
    ensures least { batch.old.next ≤ batch.new.next }
    ensures most { batch.new.next ≤ batch.old.next + 1 }
{
    if let Some(sent) = sent {
        let window = machine.devices().window();
        let len = (sent.len as usize).min(1024);
        batch.add(Content::Send {
            count: machine.count(),
            peer: sent.peer,
            number: sent.number,
            payload: &window[..len],
        });
    }
}

/// Adds the entry of a halt, where there is one.
pub fn put_halt(batch: &mut Batch, machine: &Machine, halt: Option<(u32, u32)>)
    requires fits { FitAll (map (made_of machine.now.state) (halt_list halt)) }
    requires number { IsOrdinal batch.old.next }
    requires place { HasPlace 64 batch.old }
    ensures value { (pages : List ℕ) → batch.new ≡ with_made batch.old machine.now.state pages (map (made_of machine.now.state) (halt_list halt)) }
    ensures size { batch_size batch.new ≤ batch_size batch.old + 64 }
    ensures least { batch.old.next ≤ batch.new.next }
    ensures most { batch.new.next ≤ batch.old.next + 1 }
{
    if let Some((cause, value)) = halt {
        batch.add(Content::Halt {
            count: machine.count(),
            cause,
            value,
        });
    }
}
