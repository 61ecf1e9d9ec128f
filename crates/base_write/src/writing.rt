//! A base is written to memory.

ghost use Rattle.std.specs.Prelude.{◌≡◌, ◌++◌, ◌∷◌, [], ◌<◌, ◌^◌, ℕ, List, length, IfOk, OnOk};
ghost use Rattle.std.specs.Int.{w32, w64};
ghost use Rattle.avm_num.specs.Lists.{be, one, sized_bytes};
ghost use Rattle.journal_model.specs.Header.{HeaderData, journal_magic};
ghost use Rattle.journal_model.specs.Part.{Part};
ghost use Rattle.journal_model.specs.Spelling.{header_bytes, spelled};
ghost use Rattle.base_write.specs.Headers.{IsHeader, records_bytes, unmarked};

use crate::header::BaseHeader;
use avm_hash::Digest;
use avm_num::NoMemory;
use std::alloc::{AllocError, Global};

/// The bytes of a base, of which the header has so many.
#[derive(Drop)]
pub struct Base {
    pub bytes: Vec<u8>,
    pub header: usize,
}

/// Adds what stands before a base's head.
#[tactic(auto, unfolding(avm_num::specs::Lists::be, avm_num::specs::Lists::one))]
fn put_front(
    out: &mut Vec<u8>,
    key: &[u8],
    first: u64,
    before: &Digest,
    leaves: u64,
) -> Result<(), AllocError>
    ensures { OnOk result (out.new.items ≡ out.old.items ++ (journal_magic ++ one 2 ++ key.now ++ be w64 first ++ before.now.0 ++ be w64 leaves)) }
{
    out.extend_from_slice(b"AVMJ")?;
    out.extend_from_slice(&[2])?;
    out.extend_from_slice(key)?;
    out.extend_from_slice(&first.to_be_bytes())?;
    out.extend_from_slice(&before.0)?;
    out.extend_from_slice(&leaves.to_be_bytes())
}

/// Adds the head, the pages and the carried entries.
#[tactic(auto, unfolding(avm_num::specs::Lists::be, avm_num::specs::Lists::one))]
fn put_state(
    out: &mut Vec<u8>,
    head: &[u8],
    pages: &[u8],
    count: u8,
    carried: &[u8],
) -> Result<(), AllocError>
    requires { length head.now < 2 ^ 32 }
    ensures { OnOk result (out.new.items ≡ out.old.items ++ (sized_bytes (be w32) head.now ++ pages.now ++ (one count ++ carried.now))) }
{
    let size = head.len() as u32;
    out.extend_from_slice(&size.to_be_bytes())?;
    out.extend_from_slice(head)?;
    out.extend_from_slice(pages)?;
    out.extend_from_slice(&[count])?;
    out.extend_from_slice(carried)
}

/// Adds a base's header.
fn put_header(out: &mut Vec<u8>, header: &BaseHeader<'_>) -> Result<(), AllocError>
    requires { length header.now.head.now < 2 ^ 32 }
    ensures { OnOk result ((h : HeaderData) → IsHeader header.now h → out.new.items ≡ out.old.items ++ header_bytes h) }
{
    put_front(out, header.key, header.first, &header.before, header.leaves)?;
    match put_state(out, header.head, header.pages, header.count, header.carried) {
        Ok(()) => Ok(()),
        Err(fault) => Err(fault),
    }
}

/// Adds records and a closed gate.
fn put_records(out: &mut Vec<u8>, records: &[u8]) -> Result<(), AllocError>
    ensures { OnOk result (out.new.items ≡ out.old.items ++ records.now ++ 0 ∷ []) }
{
    out.extend_from_slice(records)?;
    out.extend_from_slice(&[0])
}

/// Writes a base with this header and the bytes of its records. Its last gate is closed.
pub fn write_base(alloc: Global, header: &BaseHeader<'_>, records: &[u8]) -> Result<Base, NoMemory>
    requires { length header.now.head.now < 2 ^ 32 }
    ensures header { IfOk result (λ b. (h : HeaderData) → IsHeader header.now h → b.header ≡ length (header_bytes h)) }
    ensures bytes { IfOk result (λ b. (h : HeaderData) (rs : List (List Part)) → IsHeader header.now h → records.now ≡ records_bytes rs → b.bytes.items ≡ spelled (unmarked h rs)) }
{
    let mut bytes = Vec::new(alloc);
    let Ok(()) = put_header(&mut bytes, header) else {
        return Err(NoMemory);
    };
    let len = bytes.len();
    match put_records(&mut bytes, records) {
        Ok(()) => Ok(Base { bytes, header: len }),
        Err(AllocError) => Err(NoMemory),
    }
}
