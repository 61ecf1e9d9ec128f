//! A segment is written.

ghost use Rattle.std.specs.Prelude.{◌≡◌, ◌≢◌, ◌++◌, [], ◌≤◌, IfErr, OnOk, List, ℕ};
ghost use Rattle.std.specs.List.{AllByRecursion, flat_map};
ghost use Rattle.avm_model.specs.Frame.{frame_bytes};
ghost use Rattle.avm_outside.specs.Outside.{Counts};
ghost use Rattle.evid_file.specs.Pieces.{Written};
ghost use Rattle.export_model.specs.Exports.{stretch};
ghost use Rattle.journal_model.specs.Standing.{IsLow};
ghost use Rattle.jrnl_store.specs.Items.{item_view, items_in};
ghost use Rattle.jrnl_store.specs.Kept.{kept};
ghost use Rattle.rebut_pass.specs.Items.{HasForm};
ghost use Rattle.rebut_pass.specs.Passing.{Takes};
ghost use Rattle.rebut_pass.specs.Reads.{OfJournal, OnlyReads};
ghost use Rattle.journal_export.specs.Counts.{DiskCounts, FilesCounts};
ghost use Rattle.journal_export.specs.Exporting.{IsOfWriting};
ghost use Rattle.journal_export.specs.Writing.{Holds, Writes, writing};

use crate::cut::Cut;
use crate::draft::Draft;
use crate::fault::ExportFault;
use avm_num::are_bytes;
use avm_outside::{Disk, Failed, Files};
use jrnl_store::{Item, Items, Journal};

/// Writes an item's entry, where it belongs to the segment.
fn write_item<F: Files>(
    item: &Item<'_>,
    cut: &mut Cut,
    draft: &mut Draft,
    files: &mut F,
    name: &str,
) -> Result<(), Failed>
    requires form { HasForm (item_view item.now) }
    ensures writes { OnOk result (Writes (writing cut.old draft.old.room.bytes (F.file files.old name.now)) (item_view item.now) (writing cut.new draft.new.room.bytes (F.file files.new name.now))) }
    ensures others { (n : List ℕ) → n ≢ name.now → F.file files.new n ≡ F.file files.old n }
    ensures faults { Counts (F.faults files.old) (F.faults files.new) result }
{
    match item {
        Item::Carried(_, _) => Ok(()),
        Item::Entry(frame, _) => {
            are_bytes(frame.content);
            if cut.takes(frame.seq) {
                draft.put_entry(files, name, frame)
            } else {
                Ok(())
            }
        }
        Item::Seal(_) => Ok(()),
        Item::Keep(_) => Ok(()),
    }
}

/// Writes the entries of a record that belong to the segment.
fn write_items<F: Files>(
    items: Items<'_>,
    cut: &mut Cut,
    draft: &mut Draft,
    files: &mut F,
    name: &str,
) -> Result<(), Failed>
    requires forms { AllByRecursion HasForm items }
    ensures writes { OnOk result (Takes Writes (writing cut.old draft.old.room.bytes (F.file files.old name.now)) items.entry (writing cut.new draft.new.room.bytes (F.file files.new name.now))) }
    ensures others { (n : List ℕ) → n ≢ name.now → F.file files.new n ≡ F.file files.old n }
    ensures faults { Counts (F.faults files.old) (F.faults files.new) result }
{
    let mut left = items;
    while let Some(item) = left.next() {
        if let Err(Failed) = write_item(&item, cut, draft, files, name) {
            return Err(Failed);
        }
    }
    Ok(())
}

/// Writes the entries of a journal that belong to the segment.
fn write_entries<D: Disk, F: Files>(
    journal: &mut Journal,
    disk: &mut D,
    cut: &mut Cut,
    draft: &mut Draft,
    files: &mut F,
    name: &str,
) -> Result<(), ExportFault>
    ensures writes { OnOk result (OfJournal (D.seen disk.old) (kept journal.old) (λ j. Takes Writes (writing cut.old draft.old.room.bytes (F.file files.old name.now)) (items_in j) (writing cut.new draft.new.room.bytes (F.file files.new name.now)))) }
    ensures cause { IfErr result IsOfWriting }
    ensures kept { kept journal.new ≡ kept journal.old }
    ensures reads { OnlyReads D.seen D.may_leave D.moment D.left_since disk.old disk.new }
    ensures others { (n : List ℕ) → n ≢ name.now → F.file files.new n ≡ F.file files.old n }
    ensures disk { DiskCounts (D.faults disk.old) (D.faults disk.new) result }
    ensures files { FilesCounts (F.faults files.old) (F.faults files.new) result }
{
    let mut cursor = journal.start();
    loop {
        let held = match journal.advance(disk, &mut cursor) {
            Ok(Some(held)) => held,
            Ok(None) => return Ok(()),
            Err(_) => return Err(ExportFault::DiskFault),
        };
        if let Err(Failed) = write_items(journal.items(held), cut, draft, files, name) {
            return Err(ExportFault::FilesFault);
        }
    }
}

/// Makes a file that begins with these bytes.
fn begin<F: Files>(
    draft: &mut Draft,
    files: &mut F,
    name: &str,
    front: &[u8],
    pages: &[u8],
) -> Result<(), Failed>
    requires { draft.old.room.bytes ≡ [] }
    ensures holds { OnOk result (Holds (front.now ++ pages.now) draft.new.room.bytes (F.file files.old name.now) (F.file files.new name.now)) }
    ensures others { (n : List ℕ) → n ≢ name.now → F.file files.new n ≡ F.file files.old n }
    ensures faults { Counts (F.faults files.old) (F.faults files.new) result }
{
    files.create(name)?;
    draft.put(files, name, front)?;
    draft.put(files, name, pages)
}

/// Writes a segment of the entries `from` to `to`: these bytes, and then the entries' frames.
pub fn write_segment<D: Disk, F: Files>(
    journal: &mut Journal,
    disk: &mut D,
    draft: Draft,
    files: &mut F,
    name: &str,
    front: &[u8],
    pages: &[u8],
    from: u64,
    to: u64,
) -> Result<(), ExportFault>
    requires empty { draft.room.bytes ≡ [] }
    ensures written { OnOk result (OfJournal (D.seen disk.old) (kept journal.old) (λ j. Written (front.now ++ pages.now ++ flat_map frame_bytes (stretch j from to)) (F.file files.old name.now) (F.file files.new name.now))) }
    ensures cause { IfErr result IsOfWriting }
    ensures reads { OnlyReads D.seen D.may_leave D.moment D.left_since disk.old disk.new }
    ensures others { (n : List ℕ) → n ≢ name.now → F.file files.new n ≡ F.file files.old n }
    ensures disk { DiskCounts (D.faults disk.old) (D.faults disk.new) result }
    ensures files { FilesCounts (F.faults files.old) (F.faults files.new) result }
{
    let mut draft = draft;
    if let Err(Failed) = begin(&mut draft, files, name, front, pages) {
        return Err(ExportFault::FilesFault);
    }
    let mut cut = Cut::new(from, to);
    if let Err(fault) = write_entries(journal, disk, &mut cut, &mut draft, files, name) {
        return Err(fault);
    }
    match draft.flush(files, name) {
        Ok(()) => Ok(()),
        Err(Failed) => Err(ExportFault::FilesFault),
    }
}
