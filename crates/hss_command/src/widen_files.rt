//! The command that turns authenticators into those under two keys.

ghost use Rattle.std.specs.Prelude.{◌≡◌, ◌≢◌, ◌⊎◌, ◌≤◌, ◌^◌, ℕ, List, IfOk, IfErr, IsErrOf, IfSome, OnOk, option_map, length};
ghost use Rattle.avm_outside.specs.Outside.{Rises};
ghost use Rattle.avm_model.specs.Auth.{IsAuths};
ghost use Rattle.avm_model.specs.Audit.{auths_within};
ghost use Rattle.command_parts.specs.FileMap.{SameFiles};
ghost use Rattle.evid_file.specs.Pieces.{Written, LeavesFront};
ghost use Rattle.command_parts.specs.Reading.{IsOfReading};
ghost use Rattle.hss_auths.specs.Views.{endorsement_view};
ghost use Rattle.hss_model.specs.HssFile.{widen_of};
ghost use Rattle.hss_command.specs.Said.{IsSaid};
ghost use Rattle.hss_command.specs.Widen.{WidenEnd, WidenLeaves, WidenEnds, WidenMeans};

use crate::finishing::finish;
use crate::said::{Said, say};
use crate::writing::write_file;
use crate::{End, FileOption};
use avm_auth::{Auths, read_auths};
use avm_num::{NoMemory, Room};
use avm_outside::{Files, Sink};
use command_parts::{Fault, read_file};
use hss_auths::{Endorsement, count_auths, put_widened, read_endorsement};
use std::alloc::Global;

// The authenticators of a file within its limit.
#[tactic(auto, unfolding(avm_model::specs::Audit::auths_within))]
fn auths_in<'a>(bytes: &'a [u8]) -> Option<Auths<'a>>
    ensures exact { option_map (λ a. a) result ≡ auths_within bytes.now }
    ensures are { IfSome result (λ a. IsAuths bytes.now a × (length a ≤ 2 ^ 24) × (length bytes.now ≤ 2 ^ 24)) }
{
    if bytes.len() > 1 << 24 {
        return None;
    }
    read_auths(bytes)
}

// The bytes of the authenticators with the endorsement's parts.
#[tactic(auto, unfolding(avm_num::specs::Room::left, avm_num::specs::Room::with_bytes))]
fn widened_bytes(
    alloc: Global,
    endorsement: &Endorsement<'_>,
    bytes: &[u8],
    auths: Auths<'_>,
    count: usize,
) -> Result<Room, NoMemory>
    requires upper { length endorsement.now.upper.now ≤ 9324 }
    requires bottom { length endorsement.now.bottom.now ≡ 56 }
    requires auths { IsAuths bytes.now auths }
    requires few { length auths ≤ 2 ^ 24 }
    requires short { length bytes.now ≤ 2 ^ 24 }
    requires count { count ≡ length auths }
    ensures { IfOk result (λ r. r.bytes ≡ widen_of (endorsement_view endorsement.now) auths.entry) }
{
    let mut room = Room::new(alloc, bytes.len() + count * (60 + endorsement.upper.len()))?;
    put_widened(&mut room, endorsement, auths);
    Ok(room)
}

// Writes the authenticators with the endorsement's parts, and gives the end.
fn put_file<F: Files>(
    alloc: Global,
    files: &mut F,
    endorsement: &Endorsement<'_>,
    bytes: &[u8],
    auths: Auths<'_>,
    into: &str,
) -> Result<Said, Fault>
    requires upper { length endorsement.now.upper.now ≤ 9324 }
    requires bottom { length endorsement.now.bottom.now ≡ 56 }
    requires auths { IsAuths bytes.now auths }
    requires few { length auths ≤ 2 ^ 24 }
    requires short { length bytes.now ≤ 2 ^ 24 }
    ensures end { IfOk result (λ s. s.end ≡ End.Widened (length auths.entry)) }
    ensures line { IfOk result IsSaid }
    ensures written { OnOk result (Written (widen_of (endorsement_view endorsement.now) auths.entry) (F.file files.old into.now) (F.file files.new into.now)) }
    ensures left { IsErrOf result Fault.Files → LeavesFront (widen_of (endorsement_view endorsement.now) auths.entry) (F.file files.old into.now) (F.file files.new into.now) }
    ensures no_memory { IsErrOf result Fault.NoMemory → SameFiles (F.file files.old) (F.file files.new) }
    ensures others { (n : List ℕ) → n ≢ into.now → F.file files.new n ≡ F.file files.old n }
    ensures fault { IsErrOf result Fault.Files → Rises (F.faults files.old) (F.faults files.new) }
    ensures no_fault { result ≢ Err Fault.Files → F.faults files.new ≡ F.faults files.old }
    ensures causes { IfErr result IsOfReading }
{
    let count = count_auths(auths.again());
    let room = widened_bytes(alloc, endorsement, bytes, auths, count)?;
    let said = say(alloc, End::Widened(count as u32))?;
    write_file(files, into, room.bytes())?;
    Ok(said)
}

// Reads the endorsement and the authenticators, in this order, and writes.
fn widened<F: Files>(
    alloc: Global,
    files: &mut F,
    endorse: &str,
    auths: &str,
    into: &str,
) -> Result<Said, Fault>
    ensures ends { IfOk result (λ s. WidenEnd endorse.now auths.now into.now (F.file files.old) (F.file files.new) s.end) }
    ensures line { IfOk result IsSaid }
    ensures left { IsErrOf result Fault.Files → WidenLeaves endorse.now auths.now into.now (F.file files.old) (F.file files.new) }
    ensures no_memory { IsErrOf result Fault.NoMemory → SameFiles (F.file files.old) (F.file files.new) }
    ensures others { (n : List ℕ) → n ≢ into.now → F.file files.new n ≡ F.file files.old n }
    ensures fault { IsErrOf result Fault.Files → Rises (F.faults files.old) (F.faults files.new) }
    ensures no_fault { result ≢ Err Fault.Files → F.faults files.new ≡ F.faults files.old }
    ensures causes { IfErr result IsOfReading }
{
    let Some(front) = read_file(alloc, files, endorse, 9388)? else {
        return say(alloc, End::RefusedFile(FileOption::Endorse));
    };
    let Some(endorsement) = read_endorsement(&front) else {
        return say(alloc, End::RefusedFile(FileOption::Endorse));
    };
    let Some(bytes) = read_file(alloc, files, auths, 1 << 24)? else {
        return say(alloc, End::RefusedFile(FileOption::Auths));
    };
    let Some(list) = auths_in(&bytes) else {
        return say(alloc, End::RefusedFile(FileOption::Auths));
    };
    put_file(alloc, files, &endorsement, &bytes, list, into)
}

/// Turns the authenticators of a bottom key into those under two keys, by an endorsement, and writes them. The status: 0 done; 3 an
/// input file refused, the endorsement before the authenticators; 4 a fault of the outside; 5 want of memory.
pub fn widen<F: Files, S: Sink>(
    alloc: Global,
    files: &mut F,
    endorse: &str,
    auths: &str,
    into: &str,
    out: &mut S,
) -> u8
    ensures ends { WidenEnds endorse.now auths.now into.now (F.file files.old) (F.file files.new) (F.faults files.old) (F.faults files.new) (S.faults out.old) (S.faults out.new) (S.written out.old) (S.written out.new) result }
    ensures means { WidenMeans endorse.now auths.now into.now (F.file files.old) (F.file files.new) result }
    ensures files { (n : List ℕ) → n ≢ into.now → F.file files.new n ≡ F.file files.old n }
    ensures four { result ≡ 4 → Rises (F.faults files.old) (F.faults files.new) ⊎ Rises (S.faults out.old) (S.faults out.new) }
    ensures not_four { result ≢ 4 → (F.faults files.new ≡ F.faults files.old) × (S.faults out.new ≡ S.faults out.old) }
{
    let ended = widened(alloc, files, endorse, auths, into);
    finish(ended, out)
}
