//! The command that verifies authenticators under two keys, and turns them into those of the bottom key.

ghost use Rattle.std.specs.Prelude.{◌≡◌, ◌≢◌, ◌⊎◌, ℕ, List, IfOk, IfErr, IsErrOf, OnOk, OnErr};
ghost use Rattle.avm_outside.specs.Outside.{Rises};
ghost use Rattle.evid_file.specs.Pieces.{Written, LeavesFront};
ghost use Rattle.command_parts.specs.FileMap.{SameFiles};
ghost use Rattle.command_parts.specs.Reading.{IsOfReading};
ghost use Rattle.hss_command.specs.Said.{IsSaid};
ghost use Rattle.hss_command.specs.Narrow.{TwoCut, NarrowEnd, NarrowLeaves, NarrowEnds, NarrowMeans};

use crate::finishing::finish;
use crate::inputs::read_public_key;
use crate::said::{Said, say};
use crate::writing::write_file;
use crate::{End, FileOption};
use avm_num::Room;
use avm_outside::{Files, Sink};
use command_parts::{Fault, read_file};
use hss_files::Narrowed;
use std::alloc::Global;

// Writes two files, one after the other.
fn write_two<F: Files>(
    files: &mut F,
    first: &str,
    bytes: &[u8],
    second: &str,
    more: &[u8],
) -> Result<(), Fault>
    requires apart { first.now ≢ second.now }
    ensures written { OnOk result (Written bytes.now (F.file files.old first.now) (F.file files.new first.now) × Written more.now (F.file files.old second.now) (F.file files.new second.now)) }
    ensures failed { OnErr result (TwoCut first.now bytes.now second.now more.now (F.file files.old) (F.file files.new)) }
    ensures others { (n : List ℕ) → n ≢ first.now → n ≢ second.now → F.file files.new n ≡ F.file files.old n }
    ensures same { OnOk result (F.faults files.new ≡ F.faults files.old) }
    ensures rises { OnErr result (Rises (F.faults files.old) (F.faults files.new)) }
    ensures cause { IfErr result (λ e. e ≡ Fault.Files) }
{
    write_file(files, first, bytes)?;
    write_file(files, second, more)
}

// Reads the key and the authenticators, in this order, and writes the bottom key and its authenticators.
fn narrowed<F: Files>(
    alloc: Global,
    files: &mut F,
    key: &str,
    auths: &str,
    public: &str,
    into: &str,
) -> Result<Said, Fault>
    requires apart { public.now ≢ into.now }
    ensures ends { IfOk result (λ s. NarrowEnd key.now auths.now public.now into.now (F.file files.old) (F.file files.new) s.end) }
    ensures line { IfOk result IsSaid }
    ensures left { IsErrOf result Fault.Files → NarrowLeaves key.now auths.now public.now into.now (F.file files.old) (F.file files.new) }
    ensures no_memory { IsErrOf result Fault.NoMemory → SameFiles (F.file files.old) (F.file files.new) }
    ensures others { (n : List ℕ) → n ≢ public.now → n ≢ into.now → F.file files.new n ≡ F.file files.old n }
    ensures fault { IsErrOf result Fault.Files → Rises (F.faults files.old) (F.faults files.new) }
    ensures no_fault { result ≢ Err Fault.Files → F.faults files.new ≡ F.faults files.old }
    ensures causes { IfErr result IsOfReading }
{
    let Some(top) = read_public_key(alloc, files, key)? else {
        return say(alloc, End::RefusedFile(FileOption::Key));
    };
    let Some(bytes) = read_file(alloc, files, auths, 1 << 25)? else {
        return say(alloc, End::RefusedFile(FileOption::Auths));
    };
    let mut room = Room::new(alloc, bytes.len())?;
    match hss_files::narrow(&top, &bytes, &mut room) {
        Narrowed::Malformed => say(alloc, End::RefusedMalformed),
        Narrowed::BadAuth(k) => say(alloc, End::RefusedBadAuth(k)),
        Narrowed::Mixed(k) => say(alloc, End::RefusedMixed(k)),
        Narrowed::Under(bottom, count) => {
            let said = say(alloc, End::Narrowed(count))?;
            write_two(files, public, &bottom, into, room.bytes())?;
            Ok(said)
        }
    }
}

/// Verifies authenticators under a top key and one bottom key, and writes the bottom key and its authenticators. The status: 0 done; 2
/// refused by content: no authenticators, the first that isn't valid, the first with another bottom key; 3 an input file refused, the
/// key before the authenticators; 4 a fault of the outside; 5 want of memory.
pub fn narrow<F: Files, S: Sink>(
    alloc: Global,
    files: &mut F,
    key: &str,
    auths: &str,
    public: &str,
    into: &str,
    out: &mut S,
) -> u8
    requires apart { public.now ≢ into.now }
    ensures ends { NarrowEnds key.now auths.now public.now into.now (F.file files.old) (F.file files.new) (F.faults files.old) (F.faults files.new) (S.faults out.old) (S.faults out.new) (S.written out.old) (S.written out.new) result }
    ensures means { NarrowMeans key.now auths.now public.now into.now (F.file files.old) (F.file files.new) result }
    ensures files { (n : List ℕ) → n ≢ public.now → n ≢ into.now → F.file files.new n ≡ F.file files.old n }
    ensures four { result ≡ 4 → Rises (F.faults files.old) (F.faults files.new) ⊎ Rises (S.faults out.old) (S.faults out.new) }
    ensures not_four { result ≢ 4 → (F.faults files.new ≡ F.faults files.old) × (S.faults out.new ≡ S.faults out.old) }
{
    let ended = narrowed(alloc, files, key, auths, public, into);
    finish(ended, out)
}
