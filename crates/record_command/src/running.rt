// A script's run, whose releases are appended to three files.
ghost use Rattle.std.specs.Prelude.{◌≡◌, ◌≢◌, ℕ, List, [], None, IfSome, OnErr, OnOk};
ghost use Rattle.avm_outside.specs.Outside.{BothTold};
ghost use Rattle.avm_script.specs.Listed.{agenda_of};
ghost use Rattle.file_outlet.specs.RunFiles.{adding_piece, TornPiece};
ghost use Rattle.journal_model.specs.Journal.{JournalData};
ghost use Rattle.jrnl_store.specs.Kept.{kept as kept_of};
ghost use Rattle.record_model.specs.Recorded.{Drop, running};
ghost use Rattle.record_ready.specs.Ready.{IsDeskOf};
ghost use Rattle.record_run.specs.Ends.{DiskEnds, OutletEnds, Says, WhereCut, stop_for};
ghost use Rattle.record_run.specs.Runs.{HasDesk, LeftBy, RunEnds, sender_of};
ghost use Rattle.record_store.specs.Saving.{StandsStill};
ghost use Rattle.record_turn.specs.Desk.{rows_of};
ghost use Rattle.recorder.specs.Recorder.{desk_of, stop_of};
ghost use Rattle.record_command.specs.Runs.{held_of};

use avm_outside::{Disk, Files, Sink};
use avm_script::{Script, ScriptFeed};
use file_outlet::FileOutlet;
use record_run::{RunStop, run};
use recorder::Recorder;

/// The names of the files that a run appends to.
#[derive(Clone, Copy)]
pub struct RunNames<'a> {
    /// Each packet that is released, behind its peer and its length.
    pub packets: &'a str,
    /// The lines that the machine writes.
    pub console: &'a str,
    /// The authenticators of seals.
    pub auths: &'a str,
}

/// Runs a script on an open recorder, prints a line for each event that is dropped, and seals. What is released is appended to
/// the files.
pub fn run_on_files<F: Files, D: Disk, S: Sink>(
    recorder: &mut Recorder,
    disk: &mut D,
    script: Script,
    files: &mut F,
    names: RunNames<'_>,
    out: &mut S,
) -> Result<u64, RunStop>
    requires open { stop_of recorder.old ≡ None }
    requires own { HasDesk (kept_of (desk_of recorder.old).store.journal) (rows_of (desk_of recorder.old).kept) (D.may_leave disk.old) (D.seen disk.old) }
    ensures runs { (drops : List Drop) × Says drops result (S.faults out.old) (S.faults out.new) (S.written out.old) (S.written out.new)
        × BothTold (D.seen disk.old) (D.seen disk.new) (λ was now. (j : JournalData) → IsDeskOf (kept_of (desk_of recorder.old).store.journal) (rows_of (desk_of recorder.old).kept) (D.may_leave disk.old) was j
        → LeftBy D.moment D.left_since disk.old disk.new (kept_of (desk_of recorder.new).store.journal) (rows_of (desk_of recorder.new).kept) (D.may_leave disk.new) now (sender_of (desk_of recorder.old)) (running j (desk_of recorder.old).store.batch.parts (agenda_of script) [] [] (desk_of recorder.old).machine.state)
        (λ next. RunEnds adding_piece TornPiece (sender_of (desk_of recorder.old)) (running j (desk_of recorder.old).store.batch.parts (agenda_of script) [] [] (desk_of recorder.old).machine.state) drops (held_of names.entry.packets.now names.entry.console.now names.entry.auths.now (F.file files.old)) (held_of names.entry.packets.now names.entry.console.now names.entry.auths.now (F.file files.new)) (record { journal = next; batch = (desk_of recorder.new).store.batch.parts; machine = (desk_of recorder.new).machine.state }) result)) }
    ensures stop { OnErr result (stop_of recorder.new ≡ stop_for result) }
    ensures open { IfSome (D.seen disk.old) (λ was. OnOk result (stop_of recorder.new ≡ None)) }
    ensures others { (n : List ℕ) → n ≢ names.entry.packets.now → n ≢ names.entry.console.now → n ≢ names.entry.auths.now → F.file files.new n ≡ F.file files.old n }
    ensures disk_faults { DiskEnds result (D.faults disk.old) (D.faults disk.new) }
    ensures file_faults { OutletEnds result (F.faults files.old) (F.faults files.new) }
    ensures unsaved { WhereCut result (StandsStill (kept_of (desk_of recorder.new).store.journal) (D.may_leave disk.new) (D.seen disk.new)) }
{
    let feed = ScriptFeed::new(script);
    let mut outlet = FileOutlet::new(files, names.packets, names.console, names.auths);
    run(recorder, disk, feed, &mut outlet, out)
}
