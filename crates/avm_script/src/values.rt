// Numbers and bytes that words write.
ghost use Rattle.std.specs.Prelude.{◌≡◌, ◌^◌, ◌≤◌, ◌<◌, length, ℕ, IfOk, IfSome, option_map};
ghost use Rattle.avm_model.specs.Words.{number_of, hex_sized, hex_of};
ghost use Rattle.avm_script.specs.Script.{some_hex};
ghost use Rattle.avm_script.specs.Plain.{plain};
ghost use Rattle.avm_script.specs.Job.{height_of, width_of, address_of, words_of};

use avm_num::NoMemory;
use hex::FromHexError;
use std::alloc::Global;

// Whether neither a sign nor a needless zero stands in front.
fn is_plain(text: &[u8]) -> bool
    ensures { result ≡ plain text.now }
{
    match text {
        [] => true,
        [first] => *first != b'+',
        [first, _, ..] => *first != b'+' && *first != b'0',
    }
}

// A number: decimal, without a zero in front.
pub fn number(text: &str) -> Option<u64>
    ensures { result ≡ number_of (2 ^ 64) text.now }
{
    if !is_plain(text.as_bytes()) {
        return None;
    }
    text.parse::<u64>().ok()
}

// A number below 2^32.
pub fn small_number(text: &str) -> Option<u32>
    ensures { result ≡ number_of (2 ^ 32) text.now }
{
    match number_below(1 << 32, text.as_bytes()) {
        Some(n) => Some(n as u32),
        None => None,
    }
}

// A height of a key that may sign.
pub fn height(text: &str) -> Option<u32>
    ensures { result ≡ height_of text.now }
{
    match number(text)? {
        5 => Some(5),
        10 => Some(10),
        15 => Some(15),
        _ => None,
    }
}

// A width of a one-time signature's digits.
pub fn width(text: &str) -> Option<u32>
    ensures { result ≡ width_of text.now }
{
    match number(text)? {
        1 => Some(1),
        2 => Some(2),
        4 => Some(4),
        8 => Some(8),
        _ => None,
    }
}

// 16 bytes in hexadecimal digits.
pub fn hex_16(text: &str) -> Option<[u8; 16]>
    ensures { result ≡ hex_sized 16 text.now }
{
    <[u8; 16] as hex::FromHex>::from_hex(text).ok()
}

// 32 bytes in hexadecimal digits.
pub fn hex_32(text: &str) -> Option<[u8; 32]>
    ensures { result ≡ hex_sized 32 text.now }
{
    <[u8; 32] as hex::FromHex>::from_hex(text).ok()
}

// An address in eight hexadecimal digits.
#[tactic(auto, unfolding(crate::specs::Job::address_of))]
pub fn address(text: &str) -> Option<u32>
    ensures { result ≡ address_of text.now }
{
    let bytes = hex_4(text)?;
    Some(u32::from_be_bytes(bytes))
}

// Four bytes in hexadecimal digits.
fn hex_4(text: &str) -> Option<[u8; 4]>
    ensures { result ≡ hex_sized 4 text.now }
{
    <[u8; 4] as hex::FromHex>::from_hex(text).ok()
}

// How many words are shown.
pub fn word_count(text: &str) -> Option<u32>
    ensures { result ≡ words_of text.now }
{
    let count = number(text)?;
    if count < 1 || count > 4096 {
        return None;
    }
    Some(count as u32)
}

// A number in bytes.
pub fn number_in(text: &[u8]) -> Option<u64>
    ensures { result ≡ number_of (2 ^ 64) text.now }
{
    match str::from_utf8(text) {
        Ok(text) => number(text),
        Err(_) => None,
    }
}

// A number in bytes, below the limit.
pub fn number_below(limit: u64, text: &[u8]) -> Option<u64>
    ensures value { result ≡ number_of limit text.now }
    ensures bound { IfSome result (λ n. n < limit) }
{
    match number_in(text) {
        Some(n) if n < limit => Some(n),
        _ => None,
    }
}

// At least one byte and at most so many, in hexadecimal digits.
#[tactic(auto, unfolding(crate::specs::Script::some_hex))]
pub fn bytes_in(alloc: Global, most: usize, text: &[u8]) -> Result<Option<Vec<u8>>, NoMemory>
    ensures value { IfOk result (λ o. option_map (λ v. v.items) o ≡ some_hex most text.now) }
    ensures bound { IfOk result (λ o. IfSome o (λ v. (0 < length v.items) × (length v.items ≤ most))) }
{
    let Some(bytes) = decoded(alloc, text)? else {
        return Ok(None);
    };
    if bytes.is_empty() || bytes.len() > most {
        return Ok(None);
    }
    Ok(Some(bytes))
}

// Bytes in hexadecimal digits.
fn decoded(alloc: Global, text: &[u8]) -> Result<Option<Vec<u8>>, NoMemory>
    ensures { IfOk result (λ o. option_map (λ v. v.items) o ≡ hex_of text.now) }
{
    match hex::decode(alloc, text) {
        Ok(bytes) => Ok(Some(bytes)),
        Err(error) => match error {
            FromHexError::OutOfMemory => Err(NoMemory),
            _ => Ok(None),
        },
    }
}
