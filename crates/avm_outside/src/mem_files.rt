// Files in memory.
ghost use Rattle.std.specs.Prelude.{◌≡◌, ◌≢◌, ◌-◌, ℕ, List, None, Some, IfOk, OnOk, OnErr, length, min, option_map};
ghost use Rattle.std.specs.BTreeMap.{get_by_text};
ghost use Rattle.avm_outside.specs.Files.{IsCopied, appended};

use crate::calls::Calls;
use crate::{Failed, Files};
use avm_num::NoMemory;
use std::alloc::{AllocError, Global};
use std::collections::BTreeMap;

/// Files in memory. The calls whose numbers, counted from 1, are in its list fail; the others fail only for want of memory.
#[derive(Drop)]
pub struct MemFiles {
    alloc: Global,
    files: BTreeMap<String, Vec<u8>>,
    calls: Calls,
}

impl MemFiles {
    ghost use Rattle.std.specs.Prelude.{◌+◌, ◌^◌, ◌↔◌, [], Contains, option_copied, IsTrue};
    ghost use Rattle.avm_outside.specs.Outside.{Rises};
    ghost use Rattle.avm_outside.specs.Mem.{mem_file, files_fails, files_calls, files_faults, next_call};

    /// No files, and the numbers of the calls that are to fail.
    pub fn new(alloc: Global, fails: Vec<u64>) -> Result<Self, NoMemory>
        ensures files { IfOk result (λ m. (n : List ℕ) → mem_file m n ≡ None) }
        ensures fails { IfOk result (λ m. files_fails m ≡ fails.items) }
        ensures calls { IfOk result (λ m. files_calls m ≡ 0) }
        ensures faults { IfOk result (λ m. files_faults m ≡ 0) }
    {
        Ok(MemFiles {
            alloc,
            files: BTreeMap::new(alloc),
            calls: Calls::new(fails),
        })
    }

    /// Sets the file of a name, and makes it if it isn't there. It is no call, and where memory runs out nothing changes.
    pub fn put(&mut self, name: &str, bytes: &[u8]) -> Result<(), NoMemory>
        ensures ok { OnOk result (mem_file self.new name.now ≡ Some bytes.now) }
        ensures others { (n : List ℕ) → n ≢ name.now → mem_file self.new n ≡ mem_file self.old n }
        ensures err { OnErr result (mem_file self.new name.now ≡ mem_file self.old name.now) }
        ensures fails { files_fails self.new ≡ files_fails self.old }
        ensures calls { files_calls self.new ≡ files_calls self.old }
        ensures faults { files_faults self.new ≡ files_faults self.old }
    {
        let Ok(bytes) = Vec::from_slice(self.alloc, bytes) else {
            return Err(NoMemory);
        };
        set(self.alloc, &mut self.files, name, bytes).map_err(|_| NoMemory)
    }

    /// A file's bytes; None exactly where the name isn't there.
    pub fn bytes(&self, name: &str) -> Option<&[u8]>
        ensures { option_copied result ≡ mem_file self.now name.now }
    {
        match self.files.get(name) {
            Some(bytes) => Some(bytes.as_slice()),
            None => None,
        }
    }
}

// Sets the bytes of a name.
#[tactic(auto, using(std::proofs::lemmas::Map::Text::text_keys))]
fn set(
    alloc: Global,
    files: &mut BTreeMap<String, Vec<u8>>,
    name: &str,
    bytes: Vec<u8>,
) -> Result<(), AllocError>
    ensures ok { OnOk result (option_map (λ v. v.items) (get_by_text files.new name.now) ≡ Some bytes.items) }
    ensures others { (n : List ℕ) → n ≢ name.now → get_by_text files.new n ≡ get_by_text files.old n }
    ensures err { OnErr result (get_by_text files.new name.now ≡ get_by_text files.old name.now) }
{
    let name = String::from_str(alloc, name)?;
    files.insert(name, bytes)?;
    Ok(())
}

// Adds bytes to the file of a name, and makes it if it isn't there.
#[tactic(auto, using(std::proofs::lemmas::Map::Text::text_keys))]
fn add(
    alloc: Global,
    files: &mut BTreeMap<String, Vec<u8>>,
    name: &str,
    bytes: &[u8],
) -> Result<(), AllocError>
    ensures ok { OnOk result (option_map (λ v. v.items) (get_by_text files.new name.now) ≡ appended bytes.now (option_map (λ v. v.items) (get_by_text files.old name.now))) }
    ensures others { (n : List ℕ) → n ≢ name.now → option_map (λ v. v.items) (get_by_text files.new n) ≡ option_map (λ v. v.items) (get_by_text files.old n) }
    ensures err { OnErr result (option_map (λ v. v.items) (get_by_text files.new name.now) ≡ option_map (λ v. v.items) (get_by_text files.old name.now)) }
{
    if let Some(file) = files.get_mut(name) {
        file.extend_from_slice(bytes)?;
        return Ok(());
    }
    set(alloc, files, name, Vec::from_slice(alloc, bytes)?)
}

// Copies bytes from a place to the front of a buffer, as many as there are and fit.
fn copy(bytes: &[u8], at: u64, buf: &mut [u8]) -> usize
    ensures copied { IsCopied bytes.now at result buf.old buf.new }
    ensures all { result ≡ min (length buf.old) (length bytes.now - at) }
{
    if at >= bytes.len() as u64 {
        return 0;
    }
    let rest = &bytes[at as usize..];
    let n = rest.len().min(buf.len());
    buf[..n].copy_from_slice(&rest[..n]);
    n
}

impl Files for MemFiles {
    ghost use Rattle.std.specs.Prelude.{[], ◌+◌, ◌^◌, ◌↔◌, ◌⊎◌, ◌≤◌, Contains, IfSome, IsErr};
    ghost use Rattle.avm_outside.specs.Outside.{Counts, BothTold};
    ghost use Rattle.avm_outside.specs.Files.{Reads, AppendsFront};
    ghost use Rattle.avm_outside.specs.Mem.{mem_file, files_fails, files_calls, files_faults, next_call};

    ghost faults = { λ m. m.calls.faults };

    ghost file = { λ m name. Some (option_map (λ v. v.items) (get_by_text m.files name)) };

    fn read_at(&mut self, name: &str, at: u64, buf: &mut [u8]) -> Result<Option<usize>, Failed>
        ensures count { IfOk result (λ got. IfSome got (λ n. n ≤ length buf.old)) }
        ensures bytes { IfOk result (λ got. Reads (mem_file self.old name.now) at buf.old buf.new got) }
        ensures same { (n : List ℕ) → mem_file self.new n ≡ mem_file self.old n }
        ensures faults { Counts (files_faults self.old) (files_faults self.new) result }
        ensures listed { IsErr result ↔ Contains (files_fails self.old) (files_calls self.new) }
        ensures calls { files_calls self.new ≡ next_call (files_calls self.old) }
        ensures fails { files_fails self.new ≡ files_fails self.old }
    {
        if self.calls.count() {
            return Err(self.calls.fail());
        }
        match self.files.get(name) {
            Some(bytes) => Ok(Some(copy(bytes, at, buf))),
            None => Ok(None),
        }
    }

    fn create(&mut self, name: &str) -> Result<(), Failed>
        ensures made { OnOk result (mem_file self.new name.now ≡ Some []) }
        ensures failed { OnErr result (mem_file self.new name.now ≡ mem_file self.old name.now) }
        ensures others { (n : List ℕ) → n ≢ name.now → mem_file self.new n ≡ mem_file self.old n }
        ensures faults { Counts (files_faults self.old) (files_faults self.new) result }
        ensures listed { Contains (files_fails self.old) (files_calls self.new) → IsErr result }
        ensures calls { files_calls self.new ≡ next_call (files_calls self.old) }
        ensures fails { files_fails self.new ≡ files_fails self.old }
    {
        if self.calls.count() {
            return Err(self.calls.fail());
        }
        match set(self.alloc, &mut self.files, name, Vec::new(self.alloc)) {
            Ok(()) => Ok(()),
            Err(_) => Err(self.calls.fail()),
        }
    }

    fn append(&mut self, name: &str, bytes: &[u8]) -> Result<(), Failed>
        ensures added { OnOk result (mem_file self.new name.now ≡ appended bytes.now (mem_file self.old name.now)) }
        ensures failed { OnErr result (mem_file self.new name.now ≡ mem_file self.old name.now) }
        ensures others { (n : List ℕ) → n ≢ name.now → mem_file self.new n ≡ mem_file self.old n }
        ensures faults { Counts (files_faults self.old) (files_faults self.new) result }
        ensures listed { Contains (files_fails self.old) (files_calls self.new) → IsErr result }
        ensures calls { files_calls self.new ≡ next_call (files_calls self.old) }
        ensures fails { files_fails self.new ≡ files_fails self.old }
    {
        if self.calls.count() {
            return Err(self.calls.fail());
        }
        match add(self.alloc, &mut self.files, name, bytes) {
            Ok(()) => Ok(()),
            Err(_) => Err(self.calls.fail()),
        }
    }
}
