//! Inputs that the machine takes, as entries of the batch.

ghost use Rattle.std.specs.Prelude.{◌≡◌, ℕ, ◌+◌, ◌≤◌, ◌<◌, ◌^◌, length, true, None, Some, IfOk, IfErr, OnOk, OnErr};
ghost use Rattle.avm_model.specs.Content.{FitsContent};
ghost use Rattle.avm_model.specs.Machine.{asks};
ghost use Rattle.avm_model.specs.Offer.{OfferConsole, OfferClock, packet_offer, refuse_packet};
ghost use Rattle.avm_model.specs.Parts.{IsOrdinal};
ghost use Rattle.record_batch.specs.Batch.{batch_size, HasPlace};
ghost use Rattle.record_model.specs.Recording.{offer_content};
ghost use Rattle.record_machine.specs.Taking.{Takes};
ghost use Rattle.replayer.specs.Taking.{offered_of};

use guest_machine::{Input, Machine, NotTaken};
use log_entry::Content;
use record_batch::Batch;
use replayer::{Offered, offer};

/// Takes console bytes, or tells why they are dropped; then the machine and the batch are as before.
#[tactic(auto, unfolding(avm_model::specs::Offer::refused, avm_model::specs::Offer::taken))]
pub fn take_console(batch: &mut Batch, machine: &mut Machine, bytes: &[u8]) -> Result<(), NotTaken>
    requires some { 1 ≤ length bytes.now }
    requires few { length bytes.now ≤ 256 }
    requires count { machine.old.state.count < 2 ^ 62 }
    requires number { IsOrdinal batch.old.next }
    requires place { HasPlace 278 batch.old }
    ensures taken { OnOk result (Takes (OfferConsole bytes.now) machine.old.state machine.new.state batch.old batch.new) }
    ensures fits { FitsContent (offer_content machine.old.state.count (OfferConsole bytes.now)) }
    ensures marks { machine.new.dirty ≡ machine.old.dirty }
    ensures dropped { IfErr result (λ why. refuse_packet machine.old.state (Some (OfferConsole bytes.now)) ≡ Some why) }
    ensures same { OnErr result (machine.new ≡ machine.old) }
    ensures left { OnErr result (batch.new ≡ batch.old) }
{
    let count = machine.count();
    match machine.inject(Input::Console(bytes)) {
        Ok(()) => {
            batch.add(Content::ConIn { count, bytes });
            Ok(())
        }
        Err(why) => Err(why),
    }
}

/// Gives a machine that asks a clock value.
#[tactic(auto, unfolding(avm_model::specs::Offer::refused, avm_model::specs::Offer::taken), using(record_parts::proofs::Acting::takes_clock))]
pub fn take_clock(batch: &mut Batch, machine: &mut Machine, value: u64)
    requires asks { asks machine.old.state ≡ true }
    requires clock { machine.old.state.devices.clock ≡ None }
    requires count { machine.old.state.count < 2 ^ 62 }
    requires number { IsOrdinal batch.old.next }
    requires place { HasPlace 30 batch.old }
    ensures taken { Takes (OfferClock value) machine.old.state machine.new.state batch.old batch.new }
    ensures fits { FitsContent (offer_content machine.old.state.count (OfferClock value)) }
    ensures marks { machine.new.dirty ≡ machine.old.dirty }
{
    let count = machine.count();
    match machine.inject(Input::Clock(value)) {
        Ok(()) => batch.add(Content::Clock { count, value }),
        Err(_) => unreachable!(),
    }
}

/// Takes a packet, or tells why it is dropped; then the machine and the batch are as before.
pub fn take_packet(
    batch: &mut Batch,
    machine: &mut Machine,
    bytes: &[u8],
) -> Result<Offered, NotTaken>
    requires few { length bytes.now ≤ 20000 }
    requires number { IsOrdinal batch.old.next }
    requires place { HasPlace 20022 batch.old }
    ensures offer { IfOk result (λ o. packet_offer bytes.now ≡ Some (offered_of o bytes.now)) }
    ensures taken { IfOk result (λ o. Takes (offered_of o bytes.now) machine.old.state machine.new.state batch.old batch.new) }
    ensures fits { IfOk result (λ o. FitsContent (offer_content machine.old.state.count (offered_of o bytes.now))) }
    ensures marks { machine.new.dirty ≡ machine.old.dirty }
    ensures dropped { IfErr result (λ why. refuse_packet machine.old.state (packet_offer bytes.now) ≡ Some why) }
    ensures same { OnErr result (machine.new ≡ machine.old) }
    ensures left { OnErr result (batch.new ≡ batch.old) }
{
    let count = machine.count();
    match offer(machine, bytes) {
        Ok(Offered::Recv) => {
            batch.add(Content::Recv {
                count,
                packet: bytes,
            });
            Ok(Offered::Recv)
        }
        Ok(Offered::Acked) => {
            batch.add(Content::Acked {
                count,
                packet: bytes,
            });
            Ok(Offered::Acked)
        }
        Err(why) => Err(why),
    }
}
