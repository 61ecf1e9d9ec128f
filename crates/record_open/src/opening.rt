//! A store is opened.

ghost use Rattle.std.specs.Prelude.{◌≡◌, ◌<◌, ◌^◌, [], None, IfNone, IfOk, IfSome, MatchOption, OnOk, length, true};
ghost use Rattle.avm_model.specs.Keys.{HasTypes};
ghost use Rattle.avm_model.specs.LmsTypes.{height_of};
ghost use Rattle.avm_model.specs.HeadReading.{head_of};
ghost use Rattle.journal_model.specs.Header.{most_leaves};
ghost use Rattle.journal_model.specs.Fits.{FitsJournal};
ghost use Rattle.journal_model.specs.Journal.{JournalData};
ghost use Rattle.jrnl_store.specs.Kept.{kept as kept_of};
ghost use Rattle.jrnl_store.specs.Own.{AreKept};
ghost use Rattle.keep_judge.specs.Good.{pages_fit};
ghost use Rattle.rebut_pass.specs.Reads.{OfJournal, OnlyReads};
ghost use Rattle.record_open.specs.Counts.{OpenCounts, read_fault, store_fault};
ghost use Rattle.record_open.specs.Opening.{Allows, AttachAnswers, IsDesk, JournalAnswers, Opens, Refuses};
ghost use Rattle.open_replay.specs.Replayed.{IsReplayed};
ghost use Rattle.record_turn.specs.Desk.{IsReady};

use crate::fault::RecordFault;
use crate::marking::settle;
use avm_num::NoMemory;
use avm_outside::Disk;
use guest_machine::Outs;
use jrnl_store::{Journal, StoreFault};
use keep_judge::fits;
use lms_signer::Signer;
use open_replay::{Replayed, header_head, replay};
use rebut_pass::ReadFault;
use record_batch::Batch;
use record_machine::Drafts;
use record_press::Press;
use record_store::Store;
use record_turn::Desk;
use std::alloc::Global;

/// Why a journal isn't opened.
fn of_store(fault: StoreFault) -> RecordFault
    ensures { result ≡ store_fault fault }
{
    match fault {
        StoreFault::NoMemory => RecordFault::NoMemory,
        StoreFault::DiskFault => RecordFault::DiskFault,
        StoreFault::Damaged(place) => RecordFault::Damaged(place),
        _ => RecordFault::NoStore,
    }
}

/// Why a journal isn't read.
fn of_read(fault: ReadFault) -> RecordFault
    ensures { result ≡ read_fault fault }
{
    match fault {
        ReadFault::NoMemory => RecordFault::NoMemory,
        ReadFault::DiskFault => RecordFault::DiskFault,
    }
}

/// Opens the journal of a disk.
fn open<D: Disk>(alloc: Global, disk: &mut D) -> Result<Journal, RecordFault>
    ensures answers { IfSome (D.seen disk.old) (λ was. JournalAnswers result (D.may_leave disk.new) was) }
    ensures run { IfOk result (λ v. (kept_of v).stop ≡ None) }
    ensures reads { OnlyReads D.seen D.may_leave D.moment D.left_since disk.old disk.new }
    ensures faults { OpenCounts (D.faults disk.old) (D.faults disk.new) result }
{
    match Journal::attach(alloc, disk) {
        Ok(journal) => Ok(journal),
        Err(fault) => Err(of_store(fault)),
    }
}

/// Why a journal whose header has this head isn't opened, before anything of it is replayed.
fn refusal(journal: &Journal, signer: &Signer, head: &[u8]) -> Option<RecordFault>
    ensures { MatchOption result (Allows (kept_of journal.now) signer.now head.now) (Refuses (kept_of journal.now) signer.now head.now) }
{
    if !fits(head, journal.page_count()) {
        return Some(RecordFault::NoStore);
    }
    if journal.last() < journal.first() {
        return Some(RecordFault::NoStore);
    }
    if let Some(number) = journal.retired() {
        return Some(RecordFault::Retired(number));
    }
    if journal.key() != signer.public() {
        return Some(RecordFault::KeyMismatch);
    }
    None
}

/// The parts of a recorder; None where what was read isn't of one journal.
fn desk(
    alloc: Global,
    journal: Journal,
    press: Press,
    read: Replayed,
) -> Result<Option<Desk>, NoMemory>
    requires most { most_leaves read.tickets.key ≡ most_leaves (kept_of journal).key }
    requires leaves { most_leaves (kept_of journal).key ≡ 2 ^ height_of press.key.lms }
    requires run { (kept_of journal).stop ≡ None }
    requires mark { (kept_of journal).mark ≡ None }
    requires begun { (kept_of journal).bounds.first < (kept_of journal).standing.next }
    ensures none { IfOk result (λ o. IfNone o ((j : JournalData) → FitsJournal j → AreKept (kept_of journal) j → IsReplayed j read → read.run.judge.fault ≡ None → ⊥)) }
    ensures desk { IfOk result (λ o. IfSome o (λ d. (j : JournalData) → FitsJournal j → AreKept (kept_of journal) j → IsReplayed j read → read.run.judge.fault ≡ None → IsDesk j d)) }
    ensures kept { IfOk result (λ o. IfSome o (λ d. kept_of d.store.journal ≡ kept_of journal)) }
    ensures ready { IfOk result (λ o. IfSome o (λ d. IsReady (kept_of d.store.journal) d.store.batch)) }
    ensures empty { IfOk result (λ o. IfSome o (λ d. d.store.batch.parts ≡ [])) }
    ensures key { IfOk result (λ o. IfSome o (λ d. d.press.key ≡ press.key)) }
{
    let tickets = read.tickets;
    let ram = read.ram;
    let run = read.run;
    let snaps = run.snaps;
    let judge = run.judge;
    let replay = judge.replay;
    let (machine, tree) = replay.into_parts();
    let mut machine = machine;
    let pages = journal.page_count();
    if !settle(&mut machine, &ram, pages) {
        return Ok(None);
    }
    let drafts = Drafts::new(alloc, pages)?;
    let batch = Batch::new(alloc, journal.last() + 1)?;
    Ok(Some(Desk {
        store: Store { journal, batch },
        machine,
        tree,
        drafts,
        kept: tickets.kept,
        press,
        outs: Outs::none(),
        all: snaps,
    }))
}

/// Opens a journal, which is the one on the disk.
fn open_desk<D: Disk>(
    alloc: Global,
    journal: Journal,
    disk: &mut D,
    signer: Signer,
) -> Result<Desk, RecordFault>
    requires types { HasTypes signer }
    requires run { (kept_of journal).stop ≡ None }
    ensures opens { OfJournal (D.seen disk.old) (kept_of journal) (λ j. Opens signer j result) }
    ensures kept { IfOk result (λ d. kept_of d.store.journal ≡ kept_of journal) }
    ensures ready { IfOk result (λ d. IsReady (kept_of d.store.journal) d.store.batch) }
    ensures empty { IfOk result (λ d. d.store.batch.parts ≡ []) }
    ensures key { IfOk result (λ d. d.press.key ≡ signer) }
    ensures reads { OnlyReads D.seen D.may_leave D.moment D.left_since disk.old disk.new }
    ensures faults { OpenCounts (D.faults disk.old) (D.faults disk.new) result }
{
    let mut journal = journal;
    let head = match header_head(alloc, &mut journal, disk) {
        Ok(head) => head,
        Err(fault) => return Err(of_read(fault)),
    };
    if let Some(fault) = refusal(&journal, &signer, head.bytes()) {
        return Err(fault);
    }
    let read = match replay(alloc, &mut journal, disk, head) {
        Ok(read) => read,
        Err(fault) => return Err(of_read(fault)),
    };
    if let Some(number) = read.run.judge.fault {
        return Err(RecordFault::Unreplayed(number));
    }
    let Ok(press) = Press::new(alloc, signer) else {
        return Err(RecordFault::NoMemory);
    };
    match desk(alloc, journal, press, read) {
        Ok(Some(desk)) => Ok(desk),
        Ok(None) => Err(RecordFault::NoStore),
        Err(_) => Err(RecordFault::NoMemory),
    }
}

/// Opens a store as the parts of a recorder, whose machine is the one behind all entries of the journal: it is made of the
/// journal's last good keep, or else of its header, and the entries behind that are replayed. Nothing is released, and no byte
/// of the disk changes. All memory that a recorder needs is taken here. The signer has the types of a private key file, as
/// `Signer::new` asks for them; a refusal drops it.
///
/// The refusals, in this order: `NoStore` where the disk holds no journal; `Damaged` where bytes of it are none; `NoStore` where
/// its header's head isn't one; `Retired` where it has the mark; `KeyMismatch` where its key isn't the signer's; `Unreplayed`
/// with the number of the first entry behind the base that doesn't replay. `DiskFault` comes only where the disk's count rose.
pub fn attach<D: Disk>(alloc: Global, disk: &mut D, signer: Signer) -> Result<Desk, RecordFault>
    requires types { HasTypes signer }
    ensures answers { IfSome (D.seen disk.old) (λ was. AttachAnswers signer result (D.may_leave disk.new) was) }
    ensures ready { IfOk result (λ d. IsReady (kept_of d.store.journal) d.store.batch) }
    ensures empty { IfOk result (λ d. d.store.batch.parts ≡ []) }
    ensures key { IfOk result (λ d. d.press.key ≡ signer) }
    ensures reads { OnlyReads D.seen D.may_leave D.moment D.left_since disk.old disk.new }
    ensures faults { OpenCounts (D.faults disk.old) (D.faults disk.new) result }
{
    let journal = match open(alloc, disk) {
        Ok(journal) => journal,
        Err(fault) => return Err(fault),
    };
    match open_desk(alloc, journal, disk, signer) {
        Ok(desk) => Ok(desk),
        Err(fault) => Err(fault),
    }
}
