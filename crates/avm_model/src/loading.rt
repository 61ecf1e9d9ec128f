//! Images: a program header, and why an image is refused.

/// A program header of an ELF file (ELF-32 Object File Format, "Program Header"), as far as loading it needs.
#[derive(Clone, Copy, Debug, PartialEq, Eq)]
pub struct ProgramHeader {
    /// Its type; 1 is a segment to be loaded.
    pub kind: u32,
    /// Where its bytes stand in the file.
    pub offset: u32,
    /// The address that they are loaded at.
    pub address: u32,
    /// How many of its bytes stand in the file.
    pub file_size: u32,
    /// How many bytes it has in memory.
    pub memory_size: u32,
}

/// Why an image is not loaded. The first that applies is given, in this order.
#[derive(Clone, Copy, Debug, PartialEq, Eq)]
pub enum LoadFault {
    /// A flat image without a byte.
    Empty,
    /// A flat image that is longer than RAM.
    TooLong,
    /// No 32-bit little-endian ELF file.
    NotElf,
    /// No executable, or none for RISC-V.
    NotRiscv32,
    /// The executable has compressed code.
    Compressed,
    /// The table of program headers has another entry size, no entry or more than 64, or passes the file's end.
    Headers,
    /// The bytes of this segment are more than its place, or pass the file's end.
    Segment(u32),
    /// This segment is not wholly in RAM.
    Outside(u32),
    /// The entry is no multiple of 4 or not in RAM.
    Entry,
}
