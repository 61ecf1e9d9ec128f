//! What is released once a step's batch is saved.

ghost use Rattle.std.specs.Prelude.{◌≡◌, ◌≤◌, ◌<◌, ◌^◌, ◌++◌, IfSome, OnOk, OnErr, option_map};
ghost use Rattle.avm_model.specs.LmsTypes.{height_of};
ghost use Rattle.avm_outside.specs.Outlet.{all_added};
ghost use Rattle.avm_outside.specs.Outside.{Counts};
ghost use Rattle.guest_machine.specs.Outs.{IsOuts};
ghost use Rattle.jrnl_store.specs.Kept.{ticket_view};
ghost use Rattle.record_parts.specs.Ends.{CutsAmong};
ghost use Rattle.record_parts.specs.Outs.{line_pieces, sent_pieces};

use avm_outside::{Failed, Outlet};
use guest_machine::{Machine, Outs, Sent};
use jrnl_store::Ticket;
use record_parts::release_line;
use record_press::Press;

/// Releases the packet of a message, where one was sent.
fn release_sent<O: Outlet>(
    outlet: &mut O,
    press: &mut Press,
    machine: &Machine,
    sent: Option<Sent>,
    ticket: Option<Ticket>,
) -> Result<(), Failed>
    requires few { IfSome sent (λ x. x.len ≤ 1024) }
    requires leaf { IfSome ticket (λ t. (ticket_view t).leaf < 2 ^ height_of press.old.key.lms) }
    ensures released { OnOk result (O.held outlet.new ≡ all_added O.adding (sent_pieces (record { key = press.old.key; own = machine.now.state.devices.own }) machine.now.state sent (option_map ticket_view ticket)) (O.held outlet.old)) }
    ensures failed { OnErr result (CutsAmong O.adding O.tearing (sent_pieces (record { key = press.old.key; own = machine.now.state.devices.own }) machine.now.state sent (option_map ticket_view ticket)) (O.held outlet.old) (O.held outlet.new)) }
    ensures loan { O.loan outlet.new ≡ O.loan outlet.old }
    ensures faults { Counts (O.faults outlet.old) (O.faults outlet.new) result }
    ensures key { press.new.key ≡ press.old.key }
{
    let Some(sent) = sent else {
        return Ok(());
    };
    let Some(ticket) = ticket else {
        return Ok(());
    };
    press.send(machine, &sent, &ticket);
    outlet.packet(sent.peer, press.bytes())
}

/// Releases what a step put out, whose batch is saved.
pub fn release_outs<O: Outlet>(
    outlet: &mut O,
    press: &mut Press,
    machine: &Machine,
    outs: &Outs,
    ticket: Option<Ticket>,
) -> Result<(), Failed>
    requires outs { IsOuts outs.now }
    requires leaf { IfSome ticket (λ t. (ticket_view t).leaf < 2 ^ height_of press.old.key.lms) }
    ensures released { OnOk result (O.held outlet.new ≡ all_added O.adding (line_pieces outs.now.line ++ sent_pieces (record { key = press.old.key; own = machine.now.state.devices.own }) machine.now.state outs.now.sent (option_map ticket_view ticket)) (O.held outlet.old)) }
    ensures failed { OnErr result (CutsAmong O.adding O.tearing (line_pieces outs.now.line ++ sent_pieces (record { key = press.old.key; own = machine.now.state.devices.own }) machine.now.state outs.now.sent (option_map ticket_view ticket)) (O.held outlet.old) (O.held outlet.new)) }
    ensures loan { O.loan outlet.new ≡ O.loan outlet.old }
    ensures faults { Counts (O.faults outlet.old) (O.faults outlet.new) result }
    ensures key { press.new.key ≡ press.old.key }
{
    match release_line(outlet, &outs.line) {
        Ok(()) => {}
        Err(failed) => return Err(failed),
    }
    release_sent(outlet, press, machine, outs.sent, ticket)
}
