//! Entries of a journal are exported.

ghost use Rattle.std.specs.Prelude.{◌≡◌, ◌≢◌, [], None, IfErr, IfOk, IfSome, List, ℕ};
ghost use Rattle.jrnl_store.specs.Kept.{kept};
ghost use Rattle.rebut_model.specs.Texts.{OfHead};
ghost use Rattle.rebut_pass.specs.Reads.{OfJournal, OnlyReads};
ghost use Rattle.journal_export.specs.Counts.{DiskCounts, FilesCounts};
ghost use Rattle.journal_export.specs.Exporting.{ExportAnswers, Exports, IsOfJudging, JournalAnswers, WhereUnwritten, front_of};

use crate::draft::Draft;
use crate::fault::{ExportFault, of_store};
use crate::front::front;
use crate::judging::{Snapshot, judge};
use crate::writing::write_segment;
use avm_num::{NoMemory, Room};
use avm_outside::{Disk, Files};
use jrnl_store::Journal;
use std::alloc::Global;

/// Opens the journal of a disk.
fn open<D: Disk>(alloc: Global, disk: &mut D) -> Result<Journal, ExportFault>
    ensures answers { IfSome (D.seen disk.old) (λ was. JournalAnswers result (D.may_leave disk.new) was) }
    ensures cause { IfErr result IsOfJudging }
    ensures reads { OnlyReads D.seen D.may_leave D.moment D.left_since disk.old disk.new }
    ensures disk { DiskCounts (D.faults disk.old) (D.faults disk.new) result }
{
    match Journal::attach(alloc, disk) {
        Ok(journal) => Ok(journal),
        Err(fault) => Err(of_store(fault)),
    }
}

/// What stands before a snapshot's pages, and the buffer that a segment is written with: all memory that writing needs.
fn prepare(alloc: Global, snapshot: &Snapshot, from: u64) -> Result<(Room, Draft), NoMemory>
    requires clock { snapshot.now.machine.state.devices.clock ≡ None }
    ensures front { IfOk result (λ p. p.0.bytes ≡ front_of snapshot.now from) }
    ensures whole { IfOk result (λ p. OfHead snapshot.now.machine.state) }
    ensures empty { IfOk result (λ p. p.1.room.bytes ≡ []) }
{
    let front = front(alloc, &snapshot.machine, from, &snapshot.before)?;
    let draft = Draft::new(alloc)?;
    Ok((front, draft))
}

/// Exports entries of an opened journal.
fn export_journal<D: Disk, F: Files>(
    alloc: Global,
    journal: Journal,
    disk: &mut D,
    from: u64,
    to: u64,
    files: &mut F,
    name: &str,
) -> Result<(), ExportFault>
    ensures exports { OfJournal (D.seen disk.old) (kept journal) (λ j. Exports from to j (F.file files.old name.now) (F.file files.new name.now) result) }
    ensures unwritten { WhereUnwritten result ((n : List ℕ) → F.file files.new n ≡ F.file files.old n) }
    ensures others { (n : List ℕ) → n ≢ name.now → F.file files.new n ≡ F.file files.old n }
    ensures reads { OnlyReads D.seen D.may_leave D.moment D.left_since disk.old disk.new }
    ensures disk { DiskCounts (D.faults disk.old) (D.faults disk.new) result }
    ensures files { FilesCounts (F.faults files.old) (F.faults files.new) result }
{
    let mut journal = journal;
    let snapshot = match judge(alloc, &mut journal, disk, from, to) {
        Ok(snapshot) => snapshot,
        Err(fault) => return Err(fault),
    };
    let (front, draft) = match prepare(alloc, &snapshot, from) {
        Ok(parts) => parts,
        Err(_) => return Err(ExportFault::NoMemory),
    };
    let pages = snapshot.machine.ram().bytes();
    match write_segment(
        &mut journal,
        disk,
        draft,
        files,
        name,
        front.bytes(),
        pages,
        from,
        to,
    ) {
        Ok(()) => Ok(()),
        Err(fault) => Err(fault),
    }
}

/// Writes the entries `from` to `to` of the journal on a disk as a segment: makes the file of a name, with the state at the first of
/// them before them. The state is that of the journal's last good keep of a number at most `from`, or else of its header, and the
/// entries behind that up to `from` are replayed. The segment is written in pieces: of the journal a record is held at a time, and
/// all memory is taken before the file is made. No byte of the disk changes.
///
/// The refusals, in this order: `NoStore` where the disk holds no journal; `Damaged` where bytes of it are none; `NoStore` where its
/// header's head isn't one; `Unreplayed` with the number of the first entry that doesn't replay; `Range` where the entries are no
/// segment: `from` isn't the number of a BOOT or SNAP, `to` isn't from there to the last, more than 64 are SNAP, or the segment
/// passes its limit. A refusal leaves all files. `DiskFault` and `FilesFault` come only where that object's count rose; then the file
/// of the name may have a part of the segment.
pub fn export<D: Disk, F: Files>(
    alloc: Global,
    disk: &mut D,
    from: u64,
    to: u64,
    files: &mut F,
    name: &str,
) -> Result<(), ExportFault>
    ensures answers { IfSome (D.seen disk.old) (λ was. ExportAnswers from to was (F.file files.old name.now) (F.file files.new name.now) result) }
    ensures unwritten { WhereUnwritten result ((n : List ℕ) → F.file files.new n ≡ F.file files.old n) }
    ensures others { (n : List ℕ) → n ≢ name.now → F.file files.new n ≡ F.file files.old n }
    ensures reads { OnlyReads D.seen D.may_leave D.moment D.left_since disk.old disk.new }
    ensures disk { DiskCounts (D.faults disk.old) (D.faults disk.new) result }
    ensures files { FilesCounts (F.faults files.old) (F.faults files.new) result }
{
    let journal = match open(alloc, disk) {
        Ok(journal) => journal,
        Err(fault) => return Err(fault),
    };
    match export_journal(alloc, journal, disk, from, to, files, name) {
        Ok(()) => Ok(()),
        Err(fault) => Err(fault),
    }
}
