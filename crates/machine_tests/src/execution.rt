//! Every instruction once or more, over a memory that holds one value.

ghost use Rattle.std.specs.Prelude.{◌≡◌, ◌%◌, ◌*◌, ◌^◌, ◌==◌, nat_le, slice_index, Some, None, if◌then◌else◌};
ghost use Rattle.avm_model.specs.Values.{bytes_of};
ghost use Rattle.avm_model.specs.Exec.{Gave, NotMapped, NoClock};

use rv32_core::{Bus, Exec, Got, Hart, Width, exec};
use rv32_decode::{Inst, decode};

mod cases;

use cases::{ENDS, LOADS, MOVES, RESULTS, STORES};

const PC: u32 = 0x8000_0100;

/// A memory that has one word to fetch and one value to load, and keeps the last store; it begins at 80000000, and a load
/// from 10000008 asks.
#[derive(Drop)]
struct Cell {
    word: u32,
    held: u32,
    address: u32,
    width: Width,
    stored: u32,
}

impl Bus for Cell {
    ghost fetched = { λ s _. Some s.word };

    ghost loaded = { λ s a w. if nat_le (2 ^ 31) a then Gave (s.held % 2 ^ (8 * bytes_of w)) s else if a == 0x10000008 then NoClock else NotMapped };

    ghost stored = { λ s a w v. if nat_le (2 ^ 31) a then Some (record s { address = a; width = w; stored = v }) else None };

    ghost can_store = { λ s. Unit {0} };

    fn fetch(&mut self, _addr: u32) -> Option<u32> {
        Some(self.word)
    }

    fn fetch_inst(&mut self, _addr: u32) -> Option<Inst> {
        decode(self.word)
    }

    fn load(&mut self, addr: u32, width: Width) -> Got {
        if addr >= 0x8000_0000 {
            return Got::Value(low(self.held, width));
        }
        if addr == 0x1000_0008 {
            return Got::Asks;
        }
        Got::Unmapped
    }

    fn store(&mut self, addr: u32, width: Width, value: u32) -> bool {
        if addr < 0x8000_0000 {
            return false;
        }
        self.address = addr;
        self.width = width;
        self.stored = value;
        true
    }
}

fn low(value: u32, width: Width) -> u32
    ensures { result ≡ value % 2 ^ (8 * bytes_of width) }
{
    match width {
        Width::Byte => value % 0x100,
        Width::Half => value % 0x1_0000,
        Width::Word => value,
    }
}

fn holding(word: u32, held: u32) -> Cell {
    Cell {
        word,
        held,
        address: 0,
        width: Width::Byte,
        stored: 0,
    }
}

fn registers(a: u32, b: u32) -> [u32; 32]
    ensures { slice_index result 0 ≡ 0 }
{
    let mut x = [0x3333_3333; 32];
    x[0] = 0;
    x[1] = a;
    x[2] = b;
    x[10] = 0xa0a0_a0a0;
    x
}

fn ending(exec: Exec) -> (u32, u32) {
    match exec {
        Exec::Done => (0, 0),
        Exec::Asks => (10, 0),
        Exec::Halt { cause, value } => (cause, value),
    }
}

/// The registers, where register `rd` was given a value, unless that is x0.
fn registers_with(a: u32, b: u32, rd: u32, value: u32) -> [u32; 32] {
    let mut x = registers(a, b);
    if rd % 32 != 0 {
        x[(rd % 32) as usize] = value;
    }
    x
}

/// Whether an instruction leaves these registers and this pc, and ends so.
fn leaves(cell: &mut Cell, a: u32, b: u32, x: [u32; 32], pc: u32, end: (u32, u32)) -> bool {
    let mut hart = Hart {
        x: registers(a, b),
        pc: PC,
    };
    let outcome = exec(&mut hart, cell);
    ending(outcome) == end && hart.x == x && hart.pc == pc
}

#[test]
fn instructions(rt: HostRuntime) {
    for &(word, a, b, value) in &RESULTS {
        let x = registers_with(a, b, 3, value);
        assert!(rt;
            leaves(&mut holding(word, 0), a, b, x, PC + 4, (0, 0)),
            "{word:08x} of {a:x}, {b:x}"
        );
    }
    for &(word, a, b, rd, value, pc) in &MOVES {
        let x = registers_with(a, b, rd, value);
        assert!(rt;
            leaves(&mut holding(word, 0), a, b, x, pc, (0, 0)),
            "{word:08x} of {a:x}, {b:x}"
        );
    }
    for &(word, a, data, rd, value) in &LOADS {
        let x = registers_with(a, 0, rd, value);
        assert!(rt;
            leaves(&mut holding(word, data), a, 0, x, PC + 4, (0, 0)),
            "{word:08x} of {a:x}"
        );
    }
    for &(word, a, b, data, end, arg) in &ENDS {
        let x = registers(a, b);
        assert!(rt;
            leaves(&mut holding(word, data), a, b, x, PC, (end, arg)),
            "{word:08x} of {a:x}, {b:x}"
        );
    }
}

#[test]
fn stores(rt: HostRuntime) {
    for &(word, a, b, address, bytes, value, end, arg) in &STORES {
        let mut bus = holding(word, 0);
        let pc = if end == 0 { PC + 4 } else { PC };
        assert!(rt;
            leaves(&mut bus, a, b, registers(a, b), pc, (end, arg)),
            "{word:08x}"
        );
        assert_eq!(rt; (bus.address, bus.stored), (address, value), "{word:08x}");
        let width = if bytes == 0 { 1 } else { bytes };
        assert_eq!(rt; bus.width.bytes(), width, "{word:08x}");
    }
}
