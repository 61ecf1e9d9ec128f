//! Stores as `format` makes them, and the packets of a peer.
ghost use Rattle.std.specs.Prelude.{◌≡◌, IfSome};
ghost use Rattle.avm_model.specs.Keys.{HasTypes};
ghost use Rattle.lms_signer.specs.Views.{key_data};

use crate::tests::untold::Untold;
use avm_hash::Digest;
use avm_outside::{MemFiles, MemSink};
use format_command::format;
use lms_signer::{KeyFile, Signer};
use sample_parts::Peer;
use std::alloc::Global;
use test_guests::{ECHO, SPINS};

/// A private key file of docs/FORMATS.md: height 5, w 1, the id 00 01 .. 0f and a seed of 32 bytes 11.
const KEY: &[u8; 61] =
    b"AVMK\x01\x00\x00\x00\x05\x00\x00\x00\x01\x00\x01\x02\x03\x04\x05\x06\x07\x08\x09\x0a\x0b\x0c\x0d\x0e\x0f\x11\x11\x11\x11\x11\x11\x11\x11\x11\x11\x11\x11\x11\x11\x11\x11\x11\x11\x11\x11\x11\x11\x11\x11\x11\x11\x11\x11\x11\x11\x11\x11";

/// A guest, and whether node 1 is its peer.
#[derive(Clone, Copy)]
pub enum Guest {
    Spins,
    Echo,
}

fn image_of(alloc: Global, guest: Guest) -> Option<Vec<u8>> {
    let words = match guest {
        Guest::Spins => SPINS,
        Guest::Echo => ECHO,
    };
    let mut image = Vec::new(alloc);
    for word in words {
        image.extend_from_slice(&word.to_le_bytes()).ok()?;
    }
    Some(image)
}

fn config_of(alloc: Global, guest: Guest) -> Option<Vec<u8>> {
    let mut config = Vec::from_slice(
        alloc,
        b"{\"own\":0,\"pages\":4,\"snap\":1048576,\"peers\":[",
    )
    .ok()?;
    match guest {
        Guest::Spins => {}
        Guest::Echo => {
            let public = hex::encode(alloc, &peer(alloc)?.public()).ok()?;
            config.extend_from_slice(b"{\"id\":1,\"key\":\"").ok()?;
            config.extend_from_slice(public.as_str().as_bytes()).ok()?;
            config.extend_from_slice(b"\"}").ok()?;
        }
    }
    config.extend_from_slice(b"]}").ok()?;
    Some(config)
}

/// The store of a guest that has booted. None too where `format` doesn't make it.
pub fn store(alloc: Global, guest: Guest) -> Option<Untold> {
    let mut files = MemFiles::new(alloc, Vec::new(alloc)).ok()?;
    files.put("key", KEY).ok()?;
    files.put("config", &config_of(alloc, guest)?).ok()?;
    files.put("image", &image_of(alloc, guest)?).ok()?;
    let mut disk = Untold::new(alloc, &[], &[]).ok()?;
    let mut out = MemSink::new(alloc, Vec::new(alloc)).ok()?;
    if format(
        alloc, &mut files, "key", "config", "image", &mut disk, &mut out,
    ) == 0
    {
        Some(disk)
    } else {
        None
    }
}

/// A key of height 5 and w 1, with the id of the private key file and a seed of this byte.
fn key(byte: u8) -> KeyFile
    ensures { HasTypes (key_data result) }
{
    KeyFile {
        lms: 5,
        ots: 1,
        id: [0, 1, 2, 3, 4, 5, 6, 7, 8, 9, 10, 11, 12, 13, 14, 15],
        seed: Digest([byte; 32]),
    }
}

/// The signer of the stores' key.
pub fn signer(alloc: Global) -> Option<Signer>
    ensures { IfSome result HasTypes }
{
    Signer::new(alloc, key(0x11)).ok()
}

/// The signer of another key.
pub fn other_signer(alloc: Global) -> Option<Signer>
    ensures { IfSome result HasTypes }
{
    Signer::new(alloc, key(0x33)).ok()
}

/// The peer, before its first entry.
fn peer(alloc: Global) -> Option<Peer>
    ensures { IfSome result (λ p. (p.log.last ≡ 0) × (p.log.key.lms ≡ 5)) }
{
    let key = KeyFile {
        lms: 5,
        ots: 1,
        id: [7; 16],
        seed: Digest([0x22; 32]),
    };
    Peer::new(alloc, &key).ok()
}

/// The DATA packet of a message to node 0 of this number, with the payload `ping`, in the peer's first entry.
pub fn message(alloc: Global, number: u64) -> Option<Vec<u8>> {
    let mut peer = peer(alloc)?;
    peer.send(number, b"ping");
    Vec::from_slice(alloc, peer.packet()).ok()
}
