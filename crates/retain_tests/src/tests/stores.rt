//! Stores as `format` makes them and as runs leave them, and the packets of a peer.
ghost use Rattle.std.specs.Prelude.{◌≡◌, IfSome};

use super::running::{bytes_of, disk_of, record_on, retain_on};
use avm_hash::Digest;
use avm_outside::{MemDisk, MemFiles, MemSink};
use format_command::format;
use lms_signer::KeyFile;
use sample_parts::Peer;
use std::alloc::Global;
use test_guests::{COUNTS, ECHO};

/// A private key file of docs/FORMATS.md: height 5, w 1, the id 00 01 .. 0f and a seed of 32 bytes 11.
pub const KEY: &[u8] =
    b"AVMK\x01\x00\x00\x00\x05\x00\x00\x00\x01\x00\x01\x02\x03\x04\x05\x06\x07\x08\x09\x0a\x0b\x0c\x0d\x0e\x0f\x11\x11\x11\x11\x11\x11\x11\x11\x11\x11\x11\x11\x11\x11\x11\x11\x11\x11\x11\x11\x11\x11\x11\x11\x11\x11\x11\x11\x11\x11\x11\x11";

const SMALL: &[u8] = b"{\"own\":0,\"pages\":1,\"snap\":1024,\"peers\":[]}";

fn image_of(alloc: Global, words: &[u32]) -> Option<Vec<u8>> {
    let mut image = Vec::new(alloc);
    for word in words {
        image.extend_from_slice(&word.to_le_bytes()).ok()?;
    }
    Some(image)
}

/// The store of a guest with a configuration. None too where `format` doesn't make it.
fn store_of(alloc: Global, words: &[u32], config: &[u8]) -> Option<MemDisk> {
    let mut files = MemFiles::new(alloc, Vec::new(alloc)).ok()?;
    files.put("key", KEY).ok()?;
    files.put("config", config).ok()?;
    files.put("image", &image_of(alloc, words)?).ok()?;
    let mut disk = MemDisk::new(alloc, Vec::new(alloc)).ok()?;
    let mut out = MemSink::new(alloc, Vec::new(alloc)).ok()?;
    if format(
        alloc, &mut files, "key", "config", "image", &mut disk, &mut out,
    ) == 0
    {
        Some(disk)
    } else {
        None
    }
}

/// The store of a guest of one page without peers, with snapshots at each 1024 steps.
pub fn alone(alloc: Global, words: &[u32]) -> Option<MemDisk> {
    store_of(alloc, words, SMALL)
}

/// The store of the guest that counts, recorded to its halt: BOOT; OUT, HALT, SNAP and its keep; a seal.
pub fn counted(alloc: Global) -> Option<Vec<u8>> {
    let mut disk = alone(alloc, COUNTS)?;
    record_on(alloc, b"end 2000\n", &mut disk)?;
    bytes_of(alloc, &mut disk)
}

/// That store when it is retained at its SNAP entry, and its base.
pub fn moved(alloc: Global) -> Option<(Vec<u8>, Vec<u8>)> {
    let mut disk = disk_of(alloc, &counted(alloc)?, 0)?;
    let mut spare = disk_of(alloc, &[], 0)?;
    if !retain_on(alloc, &mut disk, 4, &mut spare)?.ended("retained 4\n", 0) {
        return None;
    }
    Some((bytes_of(alloc, &mut disk)?, bytes_of(alloc, &mut spare)?))
}

/// The bytes with one byte set.
pub fn changed(alloc: Global, bytes: &[u8], at: usize, value: u8) -> Option<Vec<u8>> {
    let mut out = Vec::from_slice(alloc, bytes).ok()?;
    *out.get_mut(at)? = value;
    Some(out)
}

/// The bytes and others behind them.
pub fn joined(alloc: Global, bytes: &[u8], more: &[u8]) -> Option<Vec<u8>> {
    let mut out = Vec::from_slice(alloc, bytes).ok()?;
    out.extend_from_slice(more).ok()?;
    Some(out)
}

/// The store of the guest that sends messages back, whose peer is node 1.
pub fn echo(alloc: Global) -> Option<MemDisk> {
    let public = hex::encode(alloc, &peer(alloc)?.public()).ok()?;
    let mut config = Vec::from_slice(
        alloc,
        b"{\"own\":0,\"pages\":1,\"snap\":1024,\"peers\":[{\"id\":1,\"key\":\"",
    )
    .ok()?;
    config.extend_from_slice(public.as_str().as_bytes()).ok()?;
    config.extend_from_slice(b"\"}]}").ok()?;
    store_of(alloc, ECHO, &config)
}

/// The peer, before its first entry.
fn peer(alloc: Global) -> Option<Peer>
    ensures { IfSome result (λ p. (p.log.last ≡ 0) × (p.log.key.lms ≡ 5)) }
{
    let key = KeyFile {
        lms: 5,
        ots: 1,
        id: [7; 16],
        seed: Digest([0x22; 32]),
    };
    Peer::new(alloc, &key).ok()
}

/// The DATA packet of the first message to node 0, with the payload `ping`, in the peer's first entry.
fn message(alloc: Global) -> Option<Vec<u8>> {
    let mut peer = peer(alloc)?;
    peer.send(1, b"ping");
    Vec::from_slice(alloc, peer.packet()).ok()
}

/// A script in which the first message comes at count 0.
pub fn one_message(alloc: Global) -> Option<Vec<u8>> {
    let packet = hex::encode(alloc, &message(alloc)?).ok()?;
    let mut script = Vec::from_slice(alloc, b"at 0 packet ").ok()?;
    script.extend_from_slice(packet.as_str().as_bytes()).ok()?;
    script.extend_from_slice(b"\nend 60000\n").ok()?;
    Some(script)
}
