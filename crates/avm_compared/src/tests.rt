//! Every opcode with its functions, and guests that print, count, read and ask, on both machines.

use crate::both::{give_both, same_state, step_both};
use avm_model::Inst;
use avm_plain::{Devices as PlainDevices, Input as PlainInput, State};
use guest_dev::Devices;
use guest_machine::{Input, Machine};
use rv32_mem::Ram;
use std::alloc::{AllocError, Global};
use std::test::Fail;
use test_guests::{COUNTS, PRINTS};

/// The opcodes that have instructions, and two that have none.
const OPCODES: [u32; 13] = [
    0x37, 0x17, 0x6f, 0x67, 0x63, 0x03, 0x23, 0x13, 0x33, 0x0f, 0x73, 0x2f, 0x00,
];

/// x1 and x2.
const OPERANDS: [(u32, u32); 4] = [
    (0x8000_0000, 2),
    (0x8000_0040, 0xffff_ffff),
    (7, 0),
    (0xffff_ff80, 0x8000_0000),
];

/// Loads from CLK_LO, CLK_HI and CON_IN, a store to WAIT, and a halt.
const READS: [u32; 6] = [
    0x1000_02b7,
    0x0082_a883,
    0x00c2_a883,
    0x0042_a883,
    0x0002_a823,
    0x0000_0073,
];

#[tactic(auto, using(guest_machine::proofs::Heads::new_head))]
fn fast(alloc: Global, words: &[u32]) -> Option<Machine> {
    let Ok(mut ram) = Ram::new(alloc, 1) else {
        return None;
    };
    let mut addr = 0x8000_0000u32;
    for &word in words {
        let _stored = ram.store(addr, 4, word);
        addr = addr.wrapping_add(4);
    }
    let Ok(devices) = Devices::new(alloc, 0, Vec::new(alloc)) else {
        return None;
    };
    let _pages = ram.pages();
    Some(Machine::new(devices, ram, 1024, 0x8000_0000))
}

/// The same with the RAM of the fast one.
fn plain(alloc: Global, machine: &Machine) -> Result<State, AllocError> {
    let ram = Vec::from_slice(alloc, machine.ram().bytes())?;
    let devices = PlainDevices::fresh(alloc, 1, 0, Vec::new(alloc))?;
    Ok(State::initial(devices, ram, 1024, 0x8000_0000))
}

/// Runs the words on both machines for some steps, with console bytes at first and a clock before each step.
fn agree(alloc: Global, words: &[u32], steps: u32) -> Result<bool, AllocError> {
    let Some(mut machine) = fast(alloc, words) else {
        return Ok(false);
    };
    let state = plain(alloc, &machine)?;
    let console = PlainInput::Console(Vec::from_slice(alloc, b"AB")?);
    let answer = machine.inject(Input::Console(b"AB"));
    let Some(mut state) = give_both(alloc, answer, state, console)? else {
        return Ok(false);
    };
    for _ in 0..steps {
        let answer = machine.inject(Input::Clock(0x7_0000_0009));
        let Some(given) = give_both(alloc, answer, state, PlainInput::Clock(0x7_0000_0009))? else {
            return Ok(false);
        };
        let Some(next) = step_both(alloc, &mut machine, given)? else {
            return Ok(false);
        };
        state = next;
    }
    Ok(same_state(&machine, &state))
}

/// x1 and x2 by two words each, and the word.
fn program(a: u32, b: u32, word: u32) -> [u32; 5] {
    let (low_a, low_b) = (a % 0x1000, b % 0x1000);
    let (high_a, high_b) = (
        a.wrapping_add(0x800) / 0x1000,
        b.wrapping_add(0x800) / 0x1000,
    );
    [
        (high_a << 12) + 0xb7,
        (low_a << 20) + 0x0_8093,
        (high_b << 12) + 0x137,
        (low_b << 20) + 0x1_0113,
        word,
    ]
}

fn same_inst(word: u32) -> bool {
    let (plain, fast): (Option<Inst>, Option<Inst>) = (
        avm_plain::decode(word),
        rv32_decode::decode(word),
    );
    plain == fast
}

#[test]
fn every_opcode(rt: HostRuntime) -> Result<(), Fail> {
    for opcode in OPCODES {
        for functions in 0..24u32 {
            let funct7 = [0, 1, 32][(functions / 8) as usize];
            let word = opcode | 0x0020_8180 | (functions % 8 << 12) | (funct7 << 25);
            assert!(rt; same_inst(word), "{word:08x}");
            let (a, b) = OPERANDS[((functions + functions / 8) % 4) as usize];
            let program = program(a, b, word);
            assert!(rt; agree(rt.alloc(), &program, 6)?, "{word:08x} {a:x} {b:x}");
        }
    }
    Ok(())
}

#[test]
fn guests(rt: HostRuntime) -> Result<(), Fail> {
    let alloc = rt.alloc();
    assert!(rt; agree(alloc, PRINTS, 8)?, "a line");
    assert!(rt; agree(alloc, COUNTS, 1030)?, "a snapshot");
    assert!(rt; agree(alloc, &READS, 8)?, "clock and console");
    assert!(rt; same_inst(0x0000_0073) && same_inst(0x0010_0073) && same_inst(0x8330_0f8f));
    Ok(())
}
