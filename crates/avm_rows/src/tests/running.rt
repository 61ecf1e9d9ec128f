//! One run over files, a disk and a sink in memory.

use avm_outside::{Disk, MemFiles, MemSink, NoDisk};
use avm_top::avm;
use std::alloc::Global;

/// What a run leaves.
#[derive(Drop)]
pub struct Ran {
    pub status: u8,
    pub files: MemFiles,
    pub out: MemSink,
}

impl Ran {
    /// Whether it printed this line alone, and ended with this status.
    pub fn ended(&self, line: &str, status: u8) -> bool {
        self.out.bytes() == line.as_bytes() && self.status == status
    }
}

fn words(alloc: Global, texts: &[&str]) -> Option<Vec<String>> {
    let mut words = Vec::new(alloc);
    for text in texts {
        words.push(String::from_str(alloc, text).ok()?).ok()?;
    }
    Some(words)
}

fn files(alloc: Global, given: &[(&str, &[u8])], fail: u64) -> Option<MemFiles> {
    let mut files = MemFiles::new(alloc, vec![in alloc; fail].ok()?).ok()?;
    for (name, bytes) in given {
        files.put(name, bytes).ok()?;
    }
    Some(files)
}

/// A run over these files, in which one call on the files and one print fail: those with these numbers (0: none).
pub fn run_failing(
    alloc: Global,
    texts: &[&str],
    given: &[(&str, &[u8])],
    file_fail: u64,
    print_fail: u64,
) -> Option<Ran> {
    let words = words(alloc, texts)?;
    let mut files = files(alloc, given, file_fail)?;
    let mut out = MemSink::new(alloc, vec![in alloc; print_fail].ok()?).ok()?;
    let mut disk = NoDisk::new();
    let mut spare = NoDisk::new();
    let status = avm(alloc, &words, &mut files, &mut disk, &mut spare, &mut out);
    Some(Ran { status, files, out })
}

/// A run over these files and a disk, without a fault of the files or the sink.
pub fn run_on<D: Disk>(
    alloc: Global,
    texts: &[&str],
    given: &[(&str, &[u8])],
    disk: &mut D,
) -> Option<Ran> {
    let words = words(alloc, texts)?;
    let mut files = files(alloc, given, 0)?;
    let mut out = MemSink::new(alloc, Vec::new(alloc)).ok()?;
    let mut spare = NoDisk::new();
    let status = avm(alloc, &words, &mut files, disk, &mut spare, &mut out);
    Some(Ran { status, files, out })
}

/// A run over these files, without a fault.
pub fn run(alloc: Global, texts: &[&str], given: &[(&str, &[u8])]) -> Option<Ran> {
    run_failing(alloc, texts, given, 0, 0)
}

/// Whether an audit of a segment alone prints this line and ends with this status.
pub fn audits_as(alloc: Global, segment: &[u8], line: &str, status: u8) -> bool {
    match run(alloc, &["audit", "--segment", "s"], &[("s", segment)]) {
        Some(ran) => ran.ended(line, status),
        None => false,
    }
}

/// The first bytes, so many; none where there are fewer.
pub fn cut(bytes: &[u8], len: usize) -> &[u8] {
    bytes.get(..len).unwrap_or(&[])
}
