// Lines of items, printed.
ghost use Rattle.std.specs.Prelude.{◌≡◌, ◌∷◌, [], map};
ghost use Rattle.command_parts.specs.Printing.{PrintsAll, line as line_of};
ghost use Rattle.jrnl_store.specs.Items.{item_view};
ghost use Rattle.list_model.specs.Lines.{mark_lines};
ghost use Rattle.list_command.specs.Listing.{item_lines, items_lines};

use crate::texts::{entry_line, mark_line, seal_line};
use avm_outside::Sink;
use command_parts::{Fault, print_line};
use jrnl_store::{Item, Items};
use std::alloc::Global;

/// Prints the line of an item, where it has one.
fn print_item<S: Sink>(alloc: Global, item: &Item<'_>, out: &mut S) -> Result<(), Fault>
    ensures { PrintsAll (item_lines (item_view item.now)) result (S.faults out.old) (S.faults out.new) (S.written out.old) (S.written out.new) }
{
    match item {
        Item::Entry(frame, _) => {
            let line = entry_line(alloc, frame)?;
            print_line(out, line.as_bytes())
        }
        Item::Seal(ticket) => {
            let line = seal_line(alloc, ticket.seq())?;
            print_line(out, line.as_bytes())
        }
        Item::Carried(_, _) => Ok(()),
        Item::Keep(_) => Ok(()),
    }
}

/// Prints the lines of items.
pub fn print_record<S: Sink>(alloc: Global, items: Items<'_>, out: &mut S) -> Result<(), Fault>
    ensures { PrintsAll (items_lines items.entry) result (S.faults out.old) (S.faults out.new) (S.written out.old) (S.written out.new) }
{
    let mut left = items;
    while let Some(item) = left.next() {
        if let Err(fault) = print_item(alloc, &item, out) {
            return Err(fault);
        }
    }
    Ok(())
}

/// Prints the line of a mark, where there is one.
pub fn print_mark<S: Sink>(alloc: Global, mark: Option<u64>, out: &mut S) -> Result<(), Fault>
    ensures { PrintsAll (map line_of (mark_lines mark)) result (S.faults out.old) (S.faults out.new) (S.written out.old) (S.written out.new) }
{
    match mark {
        Some(number) => {
            let line = mark_line(alloc, number)?;
            print_line(out, line.as_bytes())
        }
        None => Ok(()),
    }
}
