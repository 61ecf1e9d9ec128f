ghost use Rattle.std.specs.Prelude.{◌≡◌, ◌+◌, ◌^◌, ◌≤◌, ◌<◌, ℕ, List, length, take, drop, min, IfOk, IfSome};
ghost use Rattle.avm_outside.specs.Outside.{Counts};
ghost use Rattle.journal_model.specs.Journal.{longest_record};
ghost use Rattle.jrnl_store.specs.Reading.{IsGate, IsFound, IsSized, IsStartOf};
ghost use Rattle.jrnl_part.specs.Starts.{IsLowStart};

use avm_num::are_bytes;
use avm_outside::{Disk, Failed};
use jrnl_part::{Start, read_start};

/// What stands at a gate.
#[derive(Clone, Copy)]
pub enum Gate {
    /// The gate is closed.
    Closed,
    /// It is open, and no length stands behind it.
    Cut,
    /// It is open, and this length stands behind it.
    Open(u32),
}

/// What stands behind a gate.
#[derive(Clone, Copy)]
pub enum Found {
    /// The gate is closed.
    Closed,
    /// It is open, and no items stand behind it.
    Lacking,
    /// It is open, and so many bytes of items stand behind it.
    Items(usize),
}

/// What five bytes, of which so many were read, tell of a gate.
fn gate_of(head: &[u8; 5], n: usize) -> Gate
    ensures { (bytes : List ℕ) → n ≡ min 5 (length bytes) → take n head.now ≡ take n bytes → IsGate result bytes }
{
    are_bytes(head);
    if n == 0 || head[0] != 1 {
        return Gate::Closed;
    }
    if n < 5 {
        return Gate::Cut;
    }
    Gate::Open(u32::from_be_bytes([head[1], head[2], head[3], head[4]]))
}

/// Reads the gate at a place.
fn read_gate<D: Disk>(disk: &mut D, at: u64) -> Result<Gate, Failed>
    ensures gate { IfOk result (λ g. IfSome (D.seen disk.old) (λ was. IsGate g (drop at was))) }
    ensures same { D.seen disk.new ≡ D.seen disk.old }
    ensures crash { (c : List ℕ) → D.may_leave disk.new c → D.may_leave disk.old c }
    ensures later { D.moment disk.old ≤ D.moment disk.new }
    ensures moments { (t : ℕ) (c : List ℕ) → t ≤ D.moment disk.old → D.left_since disk.new t c → D.left_since disk.old t c }
    ensures faults { Counts (D.faults disk.old) (D.faults disk.new) result }
{
    let mut head = [0u8; 5];
    let n = disk.read_at(at, &mut head)?;
    Ok(gate_of(&head, n))
}

/// Reads the items behind the gate at a place into a buffer, from a disk of so many bytes.
pub fn read_record<D: Disk>(
    disk: &mut D,
    buffer: &mut [u8],
    at: u64,
    len: u64,
) -> Result<Found, Failed>
    requires len { IfSome (D.seen disk.old) (λ was. len ≡ length was) }
    requires place { at < 2 ^ 30 }
    requires room { longest_record ≤ length buffer.old }
    ensures found { IfOk result (λ f. IfSome (D.seen disk.old) (λ was. IsFound f at buffer.new (drop at was))) }
    ensures size { IfOk result (λ f. IsSized f at) }
    ensures same { D.seen disk.new ≡ D.seen disk.old }
    ensures crash { (c : List ℕ) → D.may_leave disk.new c → D.may_leave disk.old c }
    ensures later { D.moment disk.old ≤ D.moment disk.new }
    ensures moments { (t : ℕ) (c : List ℕ) → t ≤ D.moment disk.old → D.left_since disk.new t c → D.left_since disk.old t c }
    ensures faults { Counts (D.faults disk.old) (D.faults disk.new) result }
{
    let size = match read_gate(disk, at)? {
        Gate::Closed => return Ok(Found::Closed),
        Gate::Cut => return Ok(Found::Lacking),
        Gate::Open(size) => size as usize,
    };
    let next = at + 5 + size as u64;
    if size < 1 || size > 1 << 25 || next >= 1 << 30 || next >= len {
        return Ok(Found::Lacking);
    }
    let n = disk.read_at(at + 5, &mut buffer[..size])?;
    if n < size {
        return Ok(Found::Lacking);
    }
    Ok(Found::Items(size))
}

/// Reads where the journal starts whose header stands at the front of a disk.
pub fn read_front<D: Disk>(disk: &mut D, buffer: &mut [u8]) -> Result<Option<Start>, Failed>
    requires room { length buffer.old ≡ longest_record + 5 }
    ensures start { IfOk result (λ r. IfSome (D.seen disk.old) (λ was. IsStartOf r was)) }
    ensures low { IfOk result (λ r. IfSome r (λ s. IsLowStart s)) }
    ensures front { IfOk result (λ r. IfSome r (λ s. s.front ≤ longest_record + 5)) }
    ensures same { D.seen disk.new ≡ D.seen disk.old }
    ensures crash { (c : List ℕ) → D.may_leave disk.new c → D.may_leave disk.old c }
    ensures later { D.moment disk.old ≤ D.moment disk.new }
    ensures moments { (t : ℕ) (c : List ℕ) → t ≤ D.moment disk.old → D.left_since disk.new t c → D.left_since disk.old t c }
    ensures faults { Counts (D.faults disk.old) (D.faults disk.new) result }
{
    let n = disk.read_at(0, buffer)?;
    Ok(read_start(&buffer[..n]))
}

/// Reads so many bytes from a place on to the front of a buffer.
pub fn read_bytes<D: Disk>(
    disk: &mut D,
    buffer: &mut [u8],
    at: u64,
    size: usize,
) -> Result<(), Failed>
    requires room { size ≤ length buffer.old }
    ensures bytes { IfOk result (λ _. IfSome (D.seen disk.old) (λ was. at + size ≤ length was → take size buffer.new ≡ take size (drop at was))) }
    ensures same { D.seen disk.new ≡ D.seen disk.old }
    ensures crash { (c : List ℕ) → D.may_leave disk.new c → D.may_leave disk.old c }
    ensures later { D.moment disk.old ≤ D.moment disk.new }
    ensures moments { (t : ℕ) (c : List ℕ) → t ≤ D.moment disk.old → D.left_since disk.new t c → D.left_since disk.old t c }
    ensures faults { Counts (D.faults disk.old) (D.faults disk.new) result }
{
    match disk.read_at(at, &mut buffer[..size]) {
        Ok(_) => Ok(()),
        Err(failed) => Err(failed),
    }
}
