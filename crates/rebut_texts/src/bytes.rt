// Bytes of a collision.
ghost use Rattle.std.specs.Prelude.{◌≡◌, IfOk};
ghost use Rattle.rebut_model.specs.Texts.{texts};
ghost use Rattle.rebut_texts.specs.Found.{found_view};

use avm_num::NoMemory;
use std::alloc::Global;
use std::marker::Model;

/// Bytes of their own, seen as a list.
#[derive(Drop)]
pub struct Bytes {
    bytes: Vec<u8>,
}

impl Model for Bytes {
    ghost use Rattle.std.specs.Prelude.{List, ℕ};

    ghost Value = { List ℕ };

    ghost view = { λ b. b.bytes.items };
}

impl Bytes {
    /// A copy of bytes.
    pub fn copy(alloc: Global, bytes: &[u8]) -> Result<Bytes, NoMemory>
        ensures { IfOk result (λ b. b ≡ bytes.now) }
    {
        match Vec::from_slice(alloc, bytes) {
            Ok(bytes) => Ok(Bytes { bytes }),
            Err(_) => Err(NoMemory),
        }
    }

    pub fn as_slice(&self) -> &[u8]
        ensures { result.now ≡ self.now }
    {
        self.bytes.as_slice()
    }
}

/// Two texts that differ: the journal's and the evidence's.
#[derive(Drop)]
pub struct Found {
    pub ours: Bytes,
    pub theirs: Bytes,
}

/// Copies of two texts.
pub fn copy_texts(alloc: Global, ours: &[u8], theirs: &[u8]) -> Result<Found, NoMemory>
    ensures { IfOk result (λ f. found_view f ≡ texts ours.now theirs.now) }
{
    Ok(Found {
        ours: Bytes::copy(alloc, ours)?,
        theirs: Bytes::copy(alloc, theirs)?,
    })
}
