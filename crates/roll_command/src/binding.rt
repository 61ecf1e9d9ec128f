//! The command that binds a store's key to a leaf of a top key.

ghost use Rattle.std.specs.Prelude.{◌≡◌, ◌≢◌, ◌⊎◌, ◌<◌, ◌^◌, ◌≤◌, ℕ, List, Some, IfOk, IfErr, IsErrOf, OnOk};
ghost use Rattle.avm_model.specs.Keys.{KeyData, FitsKey, key_file, public_of};
ghost use Rattle.avm_model.specs.LmsTypes.{height_of};
ghost use Rattle.avm_outside.specs.Outside.{Rises};
ghost use Rattle.evid_file.specs.Pieces.{Written, LeavesFront};
ghost use Rattle.hss_command.specs.Inputs.{IsInput, public_key_in};
ghost use Rattle.command_parts.specs.Reading.{IsOfReading};
ghost use Rattle.hss_command.specs.Said.{IsSaid};
ghost use Rattle.hss_model.specs.Hss.{hss_key};
ghost use Rattle.roll_command.specs.Enroll.{EnrollEnd, EnrollEnds, EnrollLeaves, EnrollMeans, StandsWith, endorsement};
ghost use Rattle.roll_command.specs.Granting.{WhereTold};

use crate::granting::grant;
use crate::inputs::{hss_key_of, read_private_key, top_key};
use avm_num::{NoMemory, Room};
use avm_outside::{Disk, Files, Sink};
use command_parts::Fault;
use hss_command::{End, FileOption, Said, finish, read_public_key, say, write_file};
use hss_files::put_endorsement;
use lms_hss::Granted;
use lms_tree::LmsKey;
use std::alloc::Global;

// The bytes of an endorsement.
#[tactic(auto, unfolding(avm_num::specs::Room::left, avm_num::specs::Room::with_bytes))]
fn endorsed(alloc: Global, top: &LmsKey, granted: &Granted) -> Result<Room, NoMemory>
    requires leaf { granted.now.leaf < 2 ^ height_of top.now.lms }
    ensures { IfOk result (λ r. r.bytes ≡ endorsement top.now granted.now.leaf granted.now.bottom) }
{
    let mut room = Room::new(alloc, 9388)?;
    put_endorsement(top, granted, &mut room);
    Ok(room)
}

// Says the leaf, and writes the endorsement.
fn put_file<F: Files>(
    alloc: Global,
    files: &mut F,
    top: &LmsKey,
    granted: &Granted,
    endorse: &str,
) -> Result<Said, Fault>
    requires leaf { granted.now.leaf < 2 ^ height_of top.now.lms }
    ensures end { IfOk result (λ s. s.end ≡ End.Enrolled granted.now.leaf) }
    ensures line { IfOk result IsSaid }
    ensures written { OnOk result (Written (endorsement top.now granted.now.leaf granted.now.bottom) (F.file files.old endorse.now) (F.file files.new endorse.now)) }
    ensures left { IsErrOf result Fault.Files → LeavesFront (endorsement top.now granted.now.leaf granted.now.bottom) (F.file files.old endorse.now) (F.file files.new endorse.now) }
    ensures no_memory { IsErrOf result Fault.NoMemory → F.file files.new endorse.now ≡ F.file files.old endorse.now }
    ensures others { (n : List ℕ) → n ≢ endorse.now → F.file files.new n ≡ F.file files.old n }
    ensures fault { IsErrOf result Fault.Files → Rises (F.faults files.old) (F.faults files.new) }
    ensures no_fault { result ≢ Err Fault.Files → F.faults files.new ≡ F.faults files.old }
    ensures causes { IfErr result IsOfReading }
{
    let room = endorsed(alloc, top, granted)?;
    let said = say(alloc, End::Enrolled(granted.leaf()))?;
    write_file(files, endorse, room.bytes())?;
    Ok(said)
}

// Reads both keys, in this order, opens the roll, binds the key, and writes its endorsement.
fn enrolled<F: Files, D: Disk>(
    alloc: Global,
    files: &mut F,
    disk: &mut D,
    key: &str,
    public: &str,
    endorse: &str,
) -> Result<Said, Fault>
    ensures ends { IfOk result (λ s. EnrollEnd (record { key = key.now; public = public.now; endorse = endorse.now }) (F.file files.old) (F.file files.new) (D.seen disk.old) (D.seen disk.new) (D.may_leave disk.new) (disk.new ≡ disk.old) s.end) }
    ensures line { IfOk result IsSaid }
    ensures left { IsErrOf result Fault.Files → EnrollLeaves (record { key = key.now; public = public.now; endorse = endorse.now }) (F.file files.old) (F.file files.new) }
    ensures untouched { IfErr result (λ e. e ≢ Fault.Files → F.file files.new endorse.now ≡ F.file files.old endorse.now) }
    ensures others { (n : List ℕ) → n ≢ endorse.now → F.file files.new n ≡ F.file files.old n }
    ensures stands { WhereTold (D.seen disk.old) (D.seen disk.new) (StandsWith (F.file files.old public.now)) }
    ensures fault { IsErrOf result Fault.Files → Rises (F.faults files.old) (F.faults files.new) }
    ensures no_fault { result ≢ Err Fault.Files → F.faults files.new ≡ F.faults files.old }
    ensures disk_fault { IsErrOf result Fault.Disk → Rises (D.faults disk.old) (D.faults disk.new) }
    ensures no_disk_fault { result ≢ Err Fault.Disk → D.faults disk.new ≡ D.faults disk.old }
    ensures sink { result ≢ Err Fault.Sink }
{
    let Some(file) = read_private_key(alloc, files, key)? else {
        return say(alloc, End::RefusedFile(FileOption::Key));
    };
    let Some(bottom) = read_public_key(alloc, files, public)? else {
        return say(alloc, End::RefusedFile(FileOption::Public));
    };
    let top = top_key(alloc, &file)?;
    match grant(disk, &hss_key_of(&top), &bottom)? {
        Ok(granted) => put_file(alloc, files, &top, &granted, endorse),
        Err(end) => say(alloc, end),
    }
}

/// Binds a public key to a leaf of a roll's top key, and writes the endorsement. The status: 0 done; 2 refused by the roll: none, of
/// another key, or without a free leaf; 3 a key's file refused, the private one before the public one; 4 a fault of the outside; 5
/// want of memory. A key that is bound stays bound whatever comes then, and the same words end the work.
pub fn enroll<F: Files, D: Disk, S: Sink>(
    alloc: Global,
    files: &mut F,
    disk: &mut D,
    key: &str,
    public: &str,
    endorse: &str,
    out: &mut S,
) -> u8
    ensures ends { EnrollEnds (record { key = key.now; public = public.now; endorse = endorse.now }) (F.file files.old) (F.file files.new) (D.seen disk.old) (D.seen disk.new) (D.may_leave disk.new) (disk.new ≡ disk.old)
        (record { files_before = F.faults files.old; files_now = F.faults files.new; disk_before = D.faults disk.old; disk_now = D.faults disk.new; out_before = S.faults out.old; out_now = S.faults out.new })
        (S.written out.old) (S.written out.new) result }
    ensures means { EnrollMeans (record { key = key.now; public = public.now; endorse = endorse.now }) (F.file files.old) (F.file files.new) (D.seen disk.old) (D.seen disk.new) (D.may_leave disk.new) result }
    ensures stands { WhereTold (D.seen disk.old) (D.seen disk.new) (StandsWith (F.file files.old public.now)) }
    ensures files { (n : List ℕ) → n ≢ endorse.now → F.file files.new n ≡ F.file files.old n }
    ensures four { result ≡ 4 → Rises (F.faults files.old) (F.faults files.new) ⊎ (Rises (D.faults disk.old) (D.faults disk.new) ⊎ Rises (S.faults out.old) (S.faults out.new)) }
    ensures not_four { result ≢ 4 → (F.faults files.new ≡ F.faults files.old) × (D.faults disk.new ≡ D.faults disk.old) × (S.faults out.new ≡ S.faults out.old) }
{
    let ended = enrolled(alloc, files, disk, key, public, endorse);
    finish(ended, out)
}
