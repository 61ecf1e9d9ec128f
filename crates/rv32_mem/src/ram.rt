//! RAM.

ghost use Rattle.std.specs.Prelude.{◌≡◌, ◌↔◌, ◌<◌, ◌≤◌, ◌+◌, ◌-◌, ◌*◌, ◌^◌, length, IsTrue, is_some, slice_get, slice_set, slice_range, replicate, Some, IfSome, IfOk, true, false};
ghost use Rattle.avm_model.specs.Memory.{RamState, IsRam, place_in, number_at, with_number, ram_load, ram_store, stored_ram, IsSize, is_page_count, put_at, put_page, marked_from, marked_range};

use avm_num::NoMemory;
use lane_kern::{same_page, zero_page};
use std::alloc::Global;
use std::marker::Model;

const PAGE: usize = 4096;

/// The first address of RAM.
const BASE: u32 = 0x8000_0000;

/// RAM, seen as its bytes and the marks of its pages: a page is marked, or dirty, from a write to it on until it is
/// cleaned.
#[derive(Drop)]
pub struct Ram {
    bytes: Vec<u8>,
    dirty: Vec<bool>,
}

impl Model for Ram {
    ghost use Rattle.avm_model.specs.Memory.{RamState, IsRam};

    ghost Value = { RamState };

    ghost view = { λ r. record { bytes = r.bytes.items; dirty = r.dirty.items } };

    ghost invariant = { λ r. IsRam r.bytes.items r.dirty.items };
}

impl Ram {
    /// RAM of zeros, no page of it dirty.
    pub fn new(alloc: Global, pages: u32) -> Result<Ram, NoMemory>
        requires { IsTrue (is_page_count pages) }
        ensures { IfOk result (λ r. r ≡ record { bytes = replicate (4096 * pages) 0; dirty = replicate pages false }) }
    {
        let Ok(bytes) = vec![in alloc; 0u8; pages as usize * PAGE] else {
            return Err(NoMemory);
        };
        let Ok(dirty) = vec![in alloc; false; pages as usize] else {
            return Err(NoMemory);
        };
        Ok(Ram { bytes, dirty })
    }

    /// The word at the address; None exactly where the address is no multiple of 4 or the word is not wholly in RAM.
    pub fn fetch(&self, addr: u32) -> Option<u32>
        ensures value { result ≡ ram_load self.now.bytes addr 4 }
    {
        let at = place(self.bytes.len(), addr, 4)?;
        Some(word(self.bytes.as_slice(), at))
    }

    /// The number that 1, 2 or 4 bytes from the address on spell, the low byte first; None exactly where the address
    /// is no multiple of their number or they are not wholly in RAM.
    pub fn load(&self, addr: u32, bytes: u32) -> Option<u32>
        requires { IsSize bytes }
        ensures value { result ≡ ram_load self.now.bytes addr bytes }
        ensures bound { IfSome result (λ v. v < 2 ^ (8 * bytes)) }
    {
        let at = place(self.bytes.len(), addr, bytes)?;
        Some(read(self.bytes.as_slice(), at, bytes))
    }

    /// Puts the low 1, 2 or 4 bytes of the value at the address, the low byte first, and marks their page; false
    /// exactly where `load` gives None, and then nothing changes.
    pub fn store(&mut self, addr: u32, bytes: u32, value: u32) -> bool
        requires { IsSize bytes }
        ensures answer { result ≡ is_some (ram_store self.old.bytes addr bytes value) }
        ensures after { self.new ≡ stored_ram self.old addr bytes value }
    {
        let Some(at) = place(self.bytes.len(), addr, bytes) else {
            return false;
        };
        write(self.bytes.as_mut_slice(), at, bytes, value);
        self.dirty[at / PAGE] = true;
        true
    }

    /// The bytes of page `i`.
    pub fn page(&self, i: u32) -> &[u8; 4096]
        requires { i < length self.now.dirty }
        ensures { result.now ≡ slice_range self.now.bytes (4096 * i) (4096 * i + 4096) }
    {
        let start = i as usize * PAGE;
        as_page(&self.bytes[start..start + PAGE])
    }

    /// Whether page `i` is all zeros.
    pub fn is_zero(&self, i: u32) -> bool
        requires { i < length self.now.dirty }
        ensures { IsTrue result ↔ slice_range self.now.bytes (4096 * i) (4096 * i + 4096) ≡ replicate 4096 0 }
    {
        zero_page(self.page(i))
    }

    /// Whether page `i` has these bytes.
    pub fn is_page(&self, i: u32, page: &[u8; 4096]) -> bool
        requires { i < length self.now.dirty }
        ensures { IsTrue result ↔ slice_range self.now.bytes (4096 * i) (4096 * i + 4096) ≡ page.now }
    {
        same_page(self.page(i), page)
    }

    /// Puts a page in place of page `i`, and marks it.
    pub fn set_page(&mut self, i: u32, page: &[u8; 4096])
        requires { i < length self.old.dirty }
        ensures { self.new ≡ record { bytes = put_page self.old.bytes i page.now; dirty = slice_set self.old.dirty i true } }
    {
        let start = i as usize * PAGE;
        self.bytes[start..start + PAGE].copy_from_slice(page);
        self.dirty[i as usize] = true;
    }

    /// Puts bytes at a place, counted from the first address, and marks their pages.
    pub fn put(&mut self, at: u32, bytes: &[u8])
        requires { at + length bytes.now ≤ length self.old.bytes }
        ensures value { self.new ≡ record { bytes = put_at self.old.bytes at bytes.now; dirty = marked_range self.old.dirty at (length bytes.now) } }
        ensures len { length self.new.bytes ≡ length self.old.bytes }
        ensures pages { length self.new.dirty ≡ length self.old.dirty }
    {
        let from = at as usize;
        let to = from + bytes.len();
        self.bytes[from..to].copy_from_slice(bytes);
        if from < to {
            mark(self.dirty.as_mut_slice(), from / PAGE, (to - 1) / PAGE + 1);
        }
    }

    /// Puts zeros at a place, counted from the first address, and marks their pages.
    pub fn clear(&mut self, at: u32, count: u32)
        requires { at + count ≤ length self.old.bytes }
        ensures value { self.new ≡ record { bytes = put_at self.old.bytes at (replicate count 0); dirty = marked_range self.old.dirty at count } }
        ensures len { length self.new.bytes ≡ length self.old.bytes }
        ensures pages { length self.new.dirty ≡ length self.old.dirty }
    {
        let from = at as usize;
        let to = from + count as usize;
        self.bytes[from..to].fill(0);
        if from < to {
            mark(self.dirty.as_mut_slice(), from / PAGE, (to - 1) / PAGE + 1);
        }
    }

    /// All bytes, from the first address on.
    pub fn bytes(&self) -> &[u8]
        ensures value { result.now ≡ self.now.bytes }
        ensures bound { length self.now.bytes ≤ 2 ^ 24 }
        ensures sizes { IsRam self.now.bytes self.now.dirty }
    {
        self.bytes.as_slice()
    }

    /// The number of pages: a power of two.
    pub fn pages(&self) -> u32
        ensures value { result ≡ length self.now.dirty }
        ensures bound { result ≤ 4096 }
        ensures sizes { IsRam self.now.bytes self.now.dirty }
    {
        self.dirty.len() as u32
    }

    /// Whether page `i` is marked.
    pub fn dirty(&self, i: u32) -> bool
        requires { i < length self.now.dirty }
        ensures { Some result ≡ slice_get self.now.dirty i }
    {
        self.dirty[i as usize]
    }

    /// Takes the mark of page `i` away.
    pub fn clean(&mut self, i: u32)
        requires { i < length self.old.dirty }
        ensures { self.new ≡ record self.old { dirty = slice_set self.old.dirty i false } }
    {
        self.dirty[i as usize] = false;
    }
}

/// The place of `count` bytes from the address on. An address below RAM gives a number above every length.
fn place(len: usize, addr: u32, count: u32) -> Option<usize>
    requires size { IsSize count }
    requires bound { len ≤ 2 ^ 24 }
    ensures { result ≡ place_in len addr count }
{
    let at = addr.wrapping_sub(BASE) as usize;
    if addr % count != 0 || at + count as usize > len {
        return None;
    }
    Some(at)
}

/// The word that four bytes spell, the low byte first.
fn word(bytes: &[u8], at: usize) -> u32
    requires { at + 4 ≤ length bytes.now }
    ensures value { result ≡ number_at 4 bytes.now at }
{
    u32::from_le_bytes(four(&bytes[at..at + 4]))
}

/// Four bytes as an array.
fn four(bytes: &[u8]) -> [u8; 4]
    requires { length bytes.now ≡ 4 }
    ensures { result ≡ bytes.now }
{
    match bytes.try_into() {
        Ok(array) => array,
        Err(_) => unreachable!(),
    }
}

/// The number that `count` bytes spell, the low byte first.
fn read(bytes: &[u8], at: usize, count: u32) -> u32
    requires size { IsSize count }
    requires inside { at + count ≤ length bytes.now }
    ensures value { result ≡ number_at count bytes.now at }
    ensures bound { result < 2 ^ (8 * count) }
{
    if count == 4 {
        return word(bytes, at);
    }
    let first = bytes[at] as u32;
    if count == 1 {
        return first;
    }
    first + 256 * bytes[at + 1] as u32
}

/// Puts the low `count` bytes of the value, the low byte first.
fn write(bytes: &mut [u8], at: usize, count: u32, value: u32)
    requires size { IsSize count }
    requires inside { at + count ≤ length bytes.old }
    ensures { bytes.new ≡ with_number count bytes.old at value }
{
    bytes[at] = (value % 256) as u8;
    if count == 1 {
        return;
    }
    bytes[at + 1] = (value / 256 % 256) as u8;
    if count == 2 {
        return;
    }
    bytes[at + 2] = (value / 256 / 256 % 256) as u8;
    bytes[at + 3] = (value / 256 / 256 / 256 % 256) as u8;
}

/// Marks the pages from one up to another.
fn mark(dirty: &mut [bool], from: usize, to: usize)
    requires order { from ≤ to }
    requires inside { to ≤ length dirty.old }
    ensures value { dirty.new ≡ marked_from dirty.old from (to - from) }
    ensures len { length dirty.new ≡ length dirty.old }
{
    for i in from..to {
        dirty[i] = true;
    }
}

/// The bytes as a page.
fn as_page(bytes: &[u8]) -> &[u8; 4096]
    requires { length bytes.now ≡ 4096 }
    ensures { result.now ≡ bytes.now }
{
    match bytes.try_into() {
        Ok(page) => page,
        Err(_) => unreachable!(),
    }
}
