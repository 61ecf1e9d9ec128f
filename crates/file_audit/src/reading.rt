// A segment's file, read up to its end or past a segment's limit.
ghost use Rattle.std.specs.Prelude.{◌≡◌, ◌≢◌, ◌<◌, ◌≤◌, ◌^◌, ℕ, List, Option, true, Some, length, nat_le, IfOk, IsErrOf};
ghost use Rattle.avm_outside.specs.Outside.{Rises};
ghost use Rattle.command_parts.specs.Reading.{IsReadOf};
ghost use Rattle.file_audit.specs.Audited.{IsFileAudited, bytes_view};
ghost use Rattle.file_audit.specs.Hearing.{Hears, HearsFront, HearsFile};

use crate::Fault;
use crate::hearing::{Audited, Hearing};
use crate::whole::read_whole;
use avm_outside::{Failed, Files};
use std::alloc::{AllocError, Global};

/// How many bytes a stream's front has, where more may come behind it.
const FRONT: usize = 16384;

/// How many bytes are read at once behind the front.
const PIECE: usize = 65536;

/// The length of the longest segment.
const LIMIT: u64 = 1 << 26;

fn buffer(alloc: Global) -> Result<Vec<u8>, AllocError>
    ensures { IfOk result (λ v. length v.items ≡ 65536) }
{
    vec![in alloc; 0; PIECE]
}

// Hears what stands behind the front. What is past the limit changes no judgement.
fn hear_rest<F: Files>(
    alloc: Global,
    files: &mut F,
    name: &str,
    front: u64,
    buf: &mut [u8],
    hearing: &mut Hearing<'_>,
) -> Result<(), Fault>
    requires front { 0 < front }
    requires room { 0 < length buf.old }
    requires size { length buf.old ≤ 2 ^ 32 }
    requires begun { hearing.old.stream.begun ≡ true }
    ensures keep { hearing.new.keep ≡ hearing.old.keep }
    ensures heard { IfOk result (λ _. (key auths : List ℕ) (image : Option (List ℕ)) → HearsFront key auths image (F.file files.old name.now) front hearing.old → HearsFile key auths image (F.file files.old name.now) hearing.new) }
    ensures same { (n : List ℕ) → F.file files.new n ≡ F.file files.old n }
    ensures fault { IsErrOf result Fault.Files → Rises (F.faults files.old) (F.faults files.new) }
    ensures no_fault { result ≢ Err Fault.Files → F.faults files.new ≡ F.faults files.old }
{
    let mut at = front;
    while at <= LIMIT {
        match files.read_at(name, at, buf) {
            Err(Failed) => return Err(Fault::Files),
            Ok(None) => return Ok(()),
            Ok(Some(0)) => return Ok(()),
            Ok(Some(n)) => {
                hearing.feed(alloc, &buf[..n])?;
                at += n as u64;
            }
        }
    }
    Ok(())
}

// Hears the file behind its front, where that isn't all.
fn hear_on<F: Files>(
    alloc: Global,
    files: &mut F,
    name: &str,
    front: u64,
    hearing: &mut Hearing<'_>,
) -> Result<(), Fault>
    requires begun { hearing.old.stream.begun ≡ nat_le 16384 front }
    ensures keep { hearing.new.keep ≡ hearing.old.keep }
    ensures heard { IfOk result (λ _. (key auths : List ℕ) (image : Option (List ℕ)) (bytes : List ℕ) → length bytes ≡ front → Hears hearing.old key auths image bytes → IsReadOf 16383 (F.file files.old name.now) (Some bytes) → HearsFile key auths image (F.file files.old name.now) hearing.new) }
    ensures same { (n : List ℕ) → F.file files.new n ≡ F.file files.old n }
    ensures fault { IsErrOf result Fault.Files → Rises (F.faults files.old) (F.faults files.new) }
    ensures no_fault { result ≢ Err Fault.Files → F.faults files.new ≡ F.faults files.old }
{
    if !hearing.takes_more() {
        return Ok(());
    }
    let mut buf = buffer(alloc)?;
    hear_rest(alloc, files, name, front, buf.as_mut_slice(), hearing)
}

/// The audit of a segment's file with authenticators under a public key, beside an image where one is named; None where the
/// file isn't there. The segment is read in pieces, and its bytes are kept only where that is asked.
pub fn audit_file<F: Files>(
    alloc: Global,
    files: &mut F,
    name: &str,
    key: &[u8; 56],
    auths: &[u8],
    image: Option<&[u8]>,
    keep: bool,
) -> Result<Option<Audited>, Fault>
    ensures audited { IfOk result (IsFileAudited key.now auths.now (bytes_view image.entry) keep (F.file files.old name.now)) }
    ensures same { (n : List ℕ) → F.file files.new n ≡ F.file files.old n }
    ensures fault { IsErrOf result Fault.Files → Rises (F.faults files.old) (F.faults files.new) }
    ensures no_fault { result ≢ Err Fault.Files → F.faults files.new ≡ F.faults files.old }
{
    let Some(front) = read_whole(alloc, files, name, FRONT - 1)? else {
        return Ok(None);
    };
    let at = front.len() as u64;
    let mut hearing = Hearing::open(alloc, key, front, auths, image, keep)?;
    hear_on(alloc, files, name, at, &mut hearing)?;
    Ok(Some(hearing.finish()))
}
