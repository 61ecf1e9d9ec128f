// An audit that hears a segment piece by piece.
ghost use Rattle.std.specs.Prelude.{◌≡◌, ◌++◌, ℕ, List, Option, true, nat_le, length, IfOk};
ghost use Rattle.avm_model.specs.Segment.{whole_segment_of};
ghost use Rattle.file_audit.specs.Audited.{Begins, IsAudited, bytes_view};
ghost use Rattle.file_audit.specs.Hearing.{Hears, SawBeside};

use audit_stream::{AuditStream, Verdict};
use avm_num::NoMemory;
use boot_stream::BootStream;
use std::alloc::Global;

/// What an audit says of a segment: the verdict, whether the segment begins with the boot of the image, where one is named, and
/// the segment's bytes, where they are kept.
#[derive(Drop)]
pub struct Audited {
    pub verdict: Verdict,
    pub begins: bool,
    pub kept: Vec<u8>,
}

/// The verdict's stream, what is compared with the image, where one is named, and the bytes that came, where they are kept.
#[derive(Drop)]
pub struct Hearing<'a> {
    stream: AuditStream<'a>,
    boot: Option<BootStream<'a>>,
    keep: bool,
    kept: Vec<u8>,
}

// The stream beside an image, where one is named, which has seen the front.
fn boot_of<'a>(
    alloc: Global,
    front: &[u8],
    image: Option<&'a [u8]>,
) -> Result<Option<BootStream<'a>>, NoMemory>
    ensures { IfOk result (λ b. SawBeside b (bytes_view image.entry) front.now) }
{
    match image {
        Some(image) => {
            let mut boot = BootStream::new(alloc, image)?;
            boot.feed(alloc, front)?;
            Ok(Some(boot))
        }
        None => Ok(None),
    }
}

// The next piece for it.
fn feed_boot(alloc: Global, boot: &mut Option<BootStream<'_>>, piece: &[u8]) -> Result<(), NoMemory>
    ensures { IfOk result (λ _. (image : Option (List ℕ)) (bytes : List ℕ) → SawBeside boot.old image bytes → SawBeside boot.new image (bytes ++ piece.now)) }
{
    match boot {
        Some(boot) => boot.feed(alloc, piece),
        None => Ok(()),
    }
}

// Whether the segment begins with the boot of the image, where one is named.
fn begins(boot: &Option<BootStream<'_>>) -> bool
    ensures { (image : Option (List ℕ)) (bytes : List ℕ) → SawBeside boot.now image bytes → Begins image (whole_segment_of bytes) result }
{
    match boot {
        Some(boot) => boot.begins(),
        None => true,
    }
}

impl<'a> Hearing<'a> {
    /// An audit that has heard the front of a segment.
    pub fn open(
        alloc: Global,
        key: &[u8; 56],
        front: Vec<u8>,
        auths: &'a [u8],
        image: Option<&'a [u8]>,
        keep: bool,
    ) -> Result<Hearing<'a>, NoMemory>
        ensures begun { IfOk result (λ h. h.stream.begun ≡ nat_le 16384 (length front.items)) }
        ensures keep { IfOk result (λ h. h.keep ≡ keep) }
        ensures heard { IfOk result (λ h. Hears h key.now auths.now (bytes_view image.entry) front.items) }
    {
        let stream = AuditStream::open(alloc, key, &front, auths)?;
        let boot = boot_of(alloc, &front, image)?;
        let kept = if keep { front } else { Vec::new(alloc) };
        Ok(Hearing {
            stream,
            boot,
            keep,
            kept,
        })
    }

    /// Whether a piece may come.
    pub fn takes_more(&self) -> bool
        ensures { result ≡ self.now.stream.begun }
    {
        self.stream.takes_more()
    }

    /// The next piece.
    pub fn feed(&mut self, alloc: Global, piece: &[u8]) -> Result<(), NoMemory>
        requires { self.old.stream.begun ≡ true }
        ensures begun { self.new.stream.begun ≡ self.old.stream.begun }
        ensures keep { self.new.keep ≡ self.old.keep }
        ensures heard { IfOk result (λ _. (key auths : List ℕ) (image : Option (List ℕ)) (bytes : List ℕ) → Hears self.old key auths image bytes → Hears self.new key auths image (bytes ++ piece.now)) }
    {
        if self.keep {
            if let Err(_) = self.kept.extend_from_slice(piece) {
                return Err(NoMemory);
            }
        }
        self.stream.feed(piece);
        feed_boot(alloc, &mut self.boot, piece)
    }

    /// What the audit says of all bytes that came.
    pub fn finish(self) -> Audited
        ensures { (key auths : List ℕ) (image : Option (List ℕ)) (bytes : List ℕ) → Hears self.entry key auths image bytes → IsAudited key auths image self.entry.keep bytes result }
    {
        Audited {
            verdict: self.stream.finish(),
            begins: begins(&self.boot),
            kept: self.kept,
        }
    }
}
