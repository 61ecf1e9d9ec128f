//! Marks for the pages that the next keep needs.

ghost use Rattle.std.specs.Prelude.{◌≡◌, ◌*◌, ◌<◌, length, get_or, false, ℕ};
ghost use Rattle.std.specs.Bool.{OnFalse, OnTrue};
ghost use Rattle.avm_model.specs.PageMarks.{MarksPages};
ghost use Rattle.avm_model.specs.Pages.{page_of};
ghost use Rattle.record_open.specs.Opening.{IsSettled};
ghost use Rattle.record_parts.specs.Outs.{ram_in};

use guest_machine::Machine;
use rv32_mem::Ram;

/// Marks a page that another RAM has otherwise.
fn mark(ram: &mut Ram, other: &Ram, i: u32)
    requires inside { i < length ram.old.dirty }
    requires same { length other.now.dirty ≡ length ram.old.dirty }
    ensures bytes { ram.new.bytes ≡ ram.old.bytes }
    ensures marks { MarksPages ram.old ram.new }
    ensures page { get_or ram.new.dirty i false ≡ false → page_of other.now.bytes i ≡ page_of ram.new.bytes i }
{
    ram.pages();
    if ram.is_page(i, other.page(i)) {
        return;
    }
    let page = *ram.page(i);
    ram.set_page(i, &page);
}

/// Marks each page that another RAM has otherwise.
fn mark_all(ram: &mut Ram, other: &Ram)
    requires same { length other.now.dirty ≡ length ram.old.dirty }
    ensures bytes { ram.new.bytes ≡ ram.old.bytes }
    ensures marks { MarksPages ram.old ram.new }
    ensures pages { (i : ℕ) → i < length ram.new.dirty → get_or ram.new.dirty i false ≡ false → page_of other.now.bytes i ≡ page_of ram.new.bytes i }
{
    for i in 0..ram.pages() {
        mark(ram, other, i);
    }
}

/// Marks each page of a machine's RAM that another RAM has otherwise.
fn mark_machine(machine: &mut Machine, other: &Ram)
    requires same { length other.now.dirty ≡ length machine.old.dirty }
    ensures state { machine.new.state ≡ machine.old.state }
    ensures marks { MarksPages (ram_in machine.old) (ram_in machine.new) }
    ensures pages { (i : ℕ) → i < length machine.new.dirty → get_or machine.new.dirty i false ≡ false → page_of other.now.bytes i ≡ page_of machine.new.state.ram i }
{
    mark_all(machine.ram_mut(), other);
}

/// Marks each page of a machine's RAM that another RAM has otherwise; false where they don't have so many pages each.
pub fn settle(machine: &mut Machine, other: &Ram, pages: u32) -> bool
    ensures state { machine.new.state ≡ machine.old.state }
    ensures marks { MarksPages (ram_in machine.old) (ram_in machine.new) }
    ensures yes { OnTrue result (IsSettled machine.new other.now.bytes pages) }
    ensures no { OnFalse result (length machine.old.state.ram ≡ 4096 * pages → length other.now.dirty ≡ pages → ⊥) }
{
    machine.bounds();
    if machine.ram().pages() != pages {
        return false;
    }
    if other.pages() != pages {
        return false;
    }
    mark_machine(machine, other);
    true
}
