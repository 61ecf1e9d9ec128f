// Numbers and bytes that words write.
ghost use Rattle.std.specs.Prelude.{◌≡◌, ◌^◌, ◌≤◌, ◌<◌, length, IfOk, IfSome, option_map};
ghost use Rattle.avm_model.specs.Words.{number_of, hex_sized, hex_of};
ghost use Rattle.avm_script.specs.Script.{some_hex};
ghost use Rattle.avm_script.specs.Plain.{plain};
ghost use Rattle.world_schedule.specs.Schedule.{byte_of, is_long};

use avm_num::NoMemory;
use hex::FromHexError;
use std::alloc::Global;

// Whether neither a sign nor a needless zero stands in front.
fn is_plain(text: &[u8]) -> bool
    ensures { result ≡ plain text.now }
{
    match text {
        [] => true,
        [first] => *first != b'+',
        [first, _, ..] => *first != b'+' && *first != b'0',
    }
}

// A number: decimal, without a zero in front.
fn number(text: &str) -> Option<u64>
    ensures { result ≡ number_of (2 ^ 64) text.now }
{
    if !is_plain(text.as_bytes()) {
        return None;
    }
    text.parse::<u64>().ok()
}

// A number in bytes.
fn number_in(text: &[u8]) -> Option<u64>
    ensures { result ≡ number_of (2 ^ 64) text.now }
{
    match str::from_utf8(text) {
        Ok(text) => number(text),
        Err(_) => None,
    }
}

// A number in bytes, below the limit.
fn number_below(limit: u64, text: &[u8]) -> Option<u64>
    ensures value { result ≡ number_of limit text.now }
    ensures bound { IfSome result (λ n. n < limit) }
{
    match number_in(text) {
        Some(n) if n < limit => Some(n),
        _ => None,
    }
}

// A number below 2^32.
pub fn small_number(text: &[u8]) -> Option<u32>
    ensures { result ≡ number_of (2 ^ 32) text.now }
{
    match number_below(1 << 32, text) {
        Some(n) => Some(n as u32),
        None => None,
    }
}

// The number of a peer.
pub fn peer_number(text: &[u8]) -> Option<u32>
    ensures value { result ≡ number_of 16 text.now }
    ensures bound { IfSome result (λ n. n < 16) }
{
    match number_below(16, text) {
        Some(n) => Some(n as u32),
        None => None,
    }
}

// 32 bytes in hexadecimal digits.
pub fn hex_32(text: &[u8]) -> Option<[u8; 32]>
    ensures { result ≡ hex_sized 32 text.now }
{
    <[u8; 32] as hex::FromHex>::from_hex(text).ok()
}

// One byte in hexadecimal digits.
fn hex_1(text: &[u8]) -> Option<[u8; 1]>
    ensures { result ≡ hex_sized 1 text.now }
{
    <[u8; 1] as hex::FromHex>::from_hex(text).ok()
}

// A byte in two hexadecimal digits.
#[tactic(auto, unfolding(crate::specs::Schedule::byte_of))]
pub fn byte(text: &[u8]) -> Option<u8>
    ensures { result ≡ byte_of text.now }
{
    match hex_1(text) {
        Some(bytes) => Some(bytes[0]),
        None => None,
    }
}

// Whether a word is `long` or `short`.
#[tactic(auto, unfolding(crate::specs::Schedule::is_long))]
pub fn long(word: &[u8]) -> Option<bool>
    ensures { result ≡ is_long word.now }
{
    match word {
        b"long" => Some(true),
        b"short" => Some(false),
        _ => None,
    }
}

// At least one byte and at most so many, in hexadecimal digits.
#[tactic(auto, unfolding(avm_script::specs::Script::some_hex))]
pub fn bytes_in(alloc: Global, most: usize, text: &[u8]) -> Result<Option<Vec<u8>>, NoMemory>
    ensures value { IfOk result (λ o. option_map (λ v. v.items) o ≡ some_hex most text.now) }
    ensures bound { IfOk result (λ o. IfSome o (λ v. (0 < length v.items) × (length v.items ≤ most))) }
{
    let Some(bytes) = decoded(alloc, text)? else {
        return Ok(None);
    };
    if bytes.is_empty() || bytes.len() > most {
        return Ok(None);
    }
    Ok(Some(bytes))
}

// Bytes in hexadecimal digits.
fn decoded(alloc: Global, text: &[u8]) -> Result<Option<Vec<u8>>, NoMemory>
    ensures { IfOk result (λ o. option_map (λ v. v.items) o ≡ hex_of text.now) }
{
    match hex::decode(alloc, text) {
        Ok(bytes) => Ok(Some(bytes)),
        Err(error) => match error {
            FromHexError::OutOfMemory => Err(NoMemory),
            _ => Ok(None),
        },
    }
}
