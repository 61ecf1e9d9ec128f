// The files that an audit reads before the segment's.
ghost use Rattle.std.specs.Prelude.{◌≡◌, ◌≢◌, ℕ, List, IfOk, IsErrOf};
ghost use Rattle.avm_outside.specs.Outside.{Rises};
ghost use Rattle.avm_script.specs.View.{signed_view, text_view};
ghost use Rattle.file_audit.specs.Audited.{bytes_view};
ghost use Rattle.audit_command.specs.Inputs.{AreRead, IsImageRead, image_bytes};

use crate::FileOption;
use crate::image_file::read_image;
use crate::key_file::read_public_key;
use crate::limits::read_auths;
use avm_outside::Files;
use avm_script::Signed;
use file_audit::Fault;
use std::alloc::Global;

/// The image that the segment is compared with, where one is named.
#[derive(Drop)]
pub struct Beside {
    pub image: Option<Vec<u8>>,
}

impl Beside {
    /// The image's bytes.
    pub fn bytes(&self) -> Option<&[u8]>
        ensures { bytes_view result ≡ image_bytes self.now }
    {
        match &self.image {
            Some(image) => Some(image.as_slice()),
            None => None,
        }
    }
}

/// What stands beside the segment of an audit with a key.
#[derive(Drop)]
pub struct Inputs {
    pub beside: Beside,
    pub key: [u8; 56],
    pub auths: Vec<u8>,
}

/// Reads the image, where one is named, unless it is refused.
pub fn read_beside<F: Files>(
    alloc: Global,
    files: &mut F,
    image: Option<&str>,
) -> Result<Result<Beside, FileOption>, Fault>
    ensures read { IfOk result (λ r. IsImageRead (text_view image.entry) (F.file files.old) r) }
    ensures same { (n : List ℕ) → F.file files.new n ≡ F.file files.old n }
    ensures fault { IsErrOf result Fault.Files → Rises (F.faults files.old) (F.faults files.new) }
    ensures no_fault { result ≢ Err Fault.Files → F.faults files.new ≡ F.faults files.old }
{
    let Some(name) = image else {
        return Ok(Ok(Beside { image: None }));
    };
    match read_image(alloc, files, name)? {
        Some(image) => Ok(Ok(Beside { image: Some(image) })),
        None => Ok(Err(FileOption::Image)),
    }
}

/// Reads image, key and authenticators, in this order, up to the first that is refused.
pub fn read_inputs<F: Files>(
    alloc: Global,
    files: &mut F,
    image: Option<&str>,
    signed: &Signed<'_>,
) -> Result<Result<Inputs, FileOption>, Fault>
    ensures read { IfOk result (λ r. AreRead (text_view image.entry) (signed_view signed.now) (F.file files.old) r) }
    ensures same { (n : List ℕ) → F.file files.new n ≡ F.file files.old n }
    ensures fault { IsErrOf result Fault.Files → Rises (F.faults files.old) (F.faults files.new) }
    ensures no_fault { result ≢ Err Fault.Files → F.faults files.new ≡ F.faults files.old }
{
    let beside = match read_beside(alloc, files, image)? {
        Ok(beside) => beside,
        Err(option) => return Ok(Err(option)),
    };
    let Some(key) = read_public_key(alloc, files, signed.key)? else {
        return Ok(Err(FileOption::Key));
    };
    let Some(auths) = read_auths(alloc, files, signed.auths)? else {
        return Ok(Err(FileOption::Auths));
    };
    Ok(Ok(Inputs { beside, key, auths }))
}
