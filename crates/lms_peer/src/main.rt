//! A filter for comparisons with other programs: it makes keys, signs and verifies, a line each.
//!
//! `key HEX` takes a private key file and prints the public key, `sign LEAF HEX` prints the signature of a text at a leaf of
//! that key, and `verify KEY TEXT SIGNATURE` prints `valid` or `invalid`. For any other line it prints `refused`.
#![tactic(auto)]

use avm_num::Room;
use lms_signer::read_key;
use lms_tree::{LmsKey, verify};
use std::alloc::Global;
use std::io::{self, BufRead, BufReader, Write};

/// The bytes of a word of hex digits.
fn bytes_of(alloc: Global, word: Option<&str>) -> Option<Vec<u8>> {
    hex::decode(alloc, word?).ok()
}

/// The key of a private key file.
fn key_of(alloc: Global, word: Option<&str>) -> Option<LmsKey> {
    let file = read_key(&bytes_of(alloc, word)?)?;
    LmsKey::make(alloc, file.lms, file.ots, file.id, file.seed).ok()
}

/// The signature of a text at a leaf, in hex.
#[tactic(auto, unfolding(avm_num::specs::Room::left))]
fn signature(
    alloc: Global,
    key: Option<&LmsKey>,
    leaf: Option<&str>,
    text: Option<&str>,
) -> Option<String> {
    let key = key?;
    let q: u32 = leaf?.parse().ok()?;
    if q >= key.leaves() {
        return None;
    }
    let text = bytes_of(alloc, text)?;
    let mut out = Room::new(alloc, key.signature_len()).ok()?;
    key.sign(q, &text, &mut out);
    hex::encode(alloc, out.bytes()).ok()
}

/// What is printed for a line, where it is one of the three.
fn answer(alloc: Global, held: &mut Option<LmsKey>, line: &str) -> Option<String> {
    let mut words = line.split(' ');
    match words.next()? {
        "key" => {
            let key = key_of(alloc, words.next())?;
            let public = hex::encode(alloc, key.public()).ok();
            *held = Some(key);
            public
        }
        "sign" => signature(alloc, held.as_ref(), words.next(), words.next()),
        "verify" => {
            let key = bytes_of(alloc, words.next())?;
            let text = bytes_of(alloc, words.next())?;
            let sig = bytes_of(alloc, words.next())?;
            let valid = verify(&key, &text, &sig);
            String::from_str(alloc, if valid { "valid" } else { "invalid" }).ok()
        }
        _ => None,
    }
}

fn main(rt: HostRuntime) -> io::Result<()> {
    let mut held: Option<LmsKey> = None;
    for line in BufReader::new(rt.alloc(), rt.reader())?.lines(rt.alloc()) {
        match answer(rt.alloc(), &mut held, line?.as_str()) {
            Some(text) => println!(rt; "{text}")?,
            None => println!(rt; "refused")?,
        }
    }
    Ok(())
}
