// The changes of a word, printed.
ghost use Rattle.std.specs.Prelude.{◌≡◌, ◌-◌, map};
ghost use Rattle.view_model.specs.Views.{change_at, changes_in, word_at as word_at_of};
ghost use Rattle.view_command.specs.Lines.{change_line as change_line_of};
ghost use Rattle.command_parts.specs.Printing.{PrintsAll};

use crate::words::change_line;
use avm_outside::Sink;
use avm_view::Viewer;
use command_parts::{Fault, print_line};
use guest_machine::Machine;
use std::alloc::Global;

/// The word of a machine's RAM at an address.
fn word_at(machine: &Machine, address: u32) -> Option<u32>
    ensures { result ≡ word_at_of address machine.now.state }
{
    machine.ram().load(address, 4)
}

/// Prints a line where two words differ.
fn print_change<S: Sink>(
    alloc: Global,
    count: u64,
    old: Option<u32>,
    new: Option<u32>,
    out: &mut S,
) -> Result<(), Fault>
    ensures { PrintsAll (map change_line_of (change_at count old new)) result (S.faults out.old) (S.faults out.new) (S.written out.old) (S.written out.new) }
{
    match (old, new) {
        (Some(old), Some(new)) if old != new => {
            let line = change_line(alloc, count, old, new)?;
            print_line(out, line.as_bytes())
        }
        _ => Ok(()),
    }
}

/// Prints a line for each step from here to the last count by which the word changes.
pub fn print_changes<S: Sink>(
    alloc: Global,
    viewer: Viewer<'_>,
    address: u32,
    out: &mut S,
) -> Result<(), Fault>
    ensures { PrintsAll (map change_line_of (changes_in address (viewer.entry.last - viewer.entry.point.state.count) viewer.entry.point)) result (S.faults out.old) (S.faults out.new) (S.written out.old) (S.written out.new) }
{
    let mut viewer = viewer;
    let mut old = word_at(viewer.machine(), address);
    while viewer.advance() {
        let new = word_at(viewer.machine(), address);
        if let Err(fault) = print_change(alloc, viewer.machine().count(), old, new, out) {
            return Err(fault);
        }
        old = new;
    }
    Ok(())
}
