// A script is recorded on the store of its key.
ghost use Rattle.std.specs.Prelude.{◌≡◌, ◌≢◌, ◌⊎◌, ◌≤◌, ℕ, List, [], None, IfSome};
ghost use Rattle.avm_model.specs.Keys.{HasTypes};
ghost use Rattle.lms_signer.specs.Views.{key_data};
ghost use Rattle.recorder.specs.Recorder.{desk_of, stop_of};
ghost use Rattle.record_command.specs.Stores.{OpensTo};
ghost use Rattle.record_model.specs.Recorded.{Drop};
ghost use Rattle.record_command.specs.Counts.{DiskCounts, FileCounts, SaysBy, end_by};
ghost use Rattle.record_command.specs.Runs.{Leaves, StandsOn, held_of};

use crate::End;
use crate::inputs::Start;
use crate::opening::open_store;
use crate::running::{RunNames, run_on_files};
use crate::summary::summary;
use avm_outside::{Disk, Files, Sink};
use avm_script::Script;
use command_parts::Fault;
use record_run::RunStop;
use recorder::Recorder;
use std::alloc::Global;

// How a run that was stopped ends.
fn end_of(stop: RunStop) -> Result<End, Fault>
    ensures { result ≡ end_by stop }
{
    match stop {
        RunStop::LeavesSpent => Ok(End::RefusedLeaves),
        RunStop::Full => Ok(End::RefusedFull),
        RunStop::DiskFault => Err(Fault::Disk),
        RunStop::OutletFault => Err(Fault::Files),
        RunStop::SinkFault => Err(Fault::Sink),
    }
}

// Runs the script on the recorder that its store was opened to.
fn record_opened<F: Files, D: Disk, S: Sink>(
    recorder: &mut Recorder,
    disk: &mut D,
    script: Script,
    files: &mut F,
    names: RunNames<'_>,
    out: &mut S,
) -> Result<End, Fault>
    requires open { stop_of recorder.old ≡ None }
    requires empty { (desk_of recorder.old).store.batch.parts ≡ [] }
    requires opened { IfSome (D.seen disk.old) (λ was. OpensTo (desk_of recorder.old).press.key (D.may_leave disk.old) was (desk_of recorder.old)) }
    ensures leaves { (drops : List Drop) × SaysBy drops result (S.faults out.old) (S.faults out.new) (S.written out.old) (S.written out.new)
        × Leaves (desk_of recorder.old).press.key script (held_of names.entry.packets.now names.entry.console.now names.entry.auths.now (F.file files.old)) (held_of names.entry.packets.now names.entry.console.now names.entry.auths.now (F.file files.new)) (D.seen disk.old) (D.seen disk.new) (D.may_leave disk.new) drops result }
    ensures moments { IfSome (D.seen disk.old) (λ was. (t : ℕ) (c : List ℕ) → t ≤ D.moment disk.old → D.left_since disk.new t c → D.left_since disk.old t c ⊎ StandsOn (desk_of recorder.old).press.key script was c) }
    ensures others { (n : List ℕ) → n ≢ names.entry.packets.now → n ≢ names.entry.console.now → n ≢ names.entry.auths.now → F.file files.new n ≡ F.file files.old n }
    ensures file_faults { FileCounts (F.faults files.old) (F.faults files.new) result }
    ensures disk_faults { DiskCounts (D.faults disk.old) (D.faults disk.new) result }
{
    match run_on_files(recorder, disk, script, files, names, out) {
        Ok(dropped) => Ok(End::Recorded(summary(recorder, dropped))),
        Err(stop) => end_of(stop),
    }
}

/// Opens the store of a private key, and records a script on it.
pub fn record_script<F: Files, D: Disk, S: Sink>(
    alloc: Global,
    start: Start,
    disk: &mut D,
    files: &mut F,
    names: RunNames<'_>,
    out: &mut S,
) -> Result<End, Fault>
    requires types { HasTypes (key_data start.key) }
    ensures leaves { (drops : List Drop) × SaysBy drops result (S.faults out.old) (S.faults out.new) (S.written out.old) (S.written out.new)
        × Leaves (key_data start.key) start.script (held_of names.entry.packets.now names.entry.console.now names.entry.auths.now (F.file files.old)) (held_of names.entry.packets.now names.entry.console.now names.entry.auths.now (F.file files.new)) (D.seen disk.old) (D.seen disk.new) (D.may_leave disk.new) drops result }
    ensures moments { IfSome (D.seen disk.old) (λ was. (t : ℕ) (c : List ℕ) → t ≤ D.moment disk.old → D.left_since disk.new t c → D.left_since disk.old t c ⊎ StandsOn (key_data start.key) start.script was c) }
    ensures others { (n : List ℕ) → n ≢ names.entry.packets.now → n ≢ names.entry.console.now → n ≢ names.entry.auths.now → F.file files.new n ≡ F.file files.old n }
    ensures file_faults { FileCounts (F.faults files.old) (F.faults files.new) result }
    ensures disk_faults { DiskCounts (D.faults disk.old) (D.faults disk.new) result }
{
    let script = start.script;
    match open_store(alloc, disk, start.key) {
        Ok(Ok(recorder)) => {
            let mut recorder = recorder;
            record_opened(&mut recorder, disk, script, files, names, out)
        }
        Ok(Err(end)) => Ok(end),
        Err(fault) => Err(fault),
    }
}
