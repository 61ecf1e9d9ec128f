//! Guests of a few words, and what they put out.

use avm_model::NotTaken;
use avm_plain::{
    Devices, Entry, Given, Input, Made, Output, State, is_front, refusal, replays, rerun, step,
    take,
};
use std::alloc::{AllocError, Global};
use std::test::Fail;
use test_guests::{ASKS, COUNTS, PRINTS, READS, RINGS};

/// The state that runs the words in a machine of this version, in one page, with a snapshot each 1024 steps.
fn booted(alloc: Global, version: u8, words: &[u32]) -> Result<State, AllocError> {
    let mut ram = Vec::new(alloc);
    for word in words {
        ram.extend_from_slice(&word.to_le_bytes())?;
    }
    for _ in ram.len()..4096 {
        ram.push(0)?;
    }
    let devices = Devices::fresh(alloc, version, 0, Vec::new(alloc))?;
    Ok(State::initial(devices, ram, 1024, 0x8000_0000))
}

fn guest(alloc: Global, words: &[u32]) -> Result<State, AllocError> {
    booted(alloc, 1, words)
}

fn out(alloc: Global, count: u64, line: &[u8]) -> Result<Entry, AllocError> {
    let output = Output::Out(Vec::from_slice(alloc, line)?);
    Ok(Entry::Output(Made { count, output }))
}

fn halt(count: u64, cause: u32, value: u32) -> Entry {
    Entry::Output(Made {
        count,
        output: Output::Halt { cause, value },
    })
}

fn snap(count: u64) -> Entry {
    Entry::Output(Made {
        count,
        output: Output::Snap,
    })
}

fn clock(count: u64, value: u64) -> Given {
    Given {
        count,
        input: Input::Clock(value),
    }
}

/// Whether the run from the state over the inputs has exactly these entries.
fn runs_from(
    alloc: Global,
    state: &State,
    inputs: &[Given],
    end: u64,
    want: &[Entry],
) -> Result<bool, AllocError> {
    let run = rerun(alloc, state, inputs, end)?;
    Ok(run.len() == want.len() && is_front(want, run.as_slice()))
}

/// Whether the run of the words over the inputs has exactly these entries.
fn runs(
    alloc: Global,
    words: &[u32],
    inputs: &[Given],
    end: u64,
    want: &[Entry],
) -> Result<bool, AllocError> {
    runs_from(alloc, &guest(alloc, words)?, inputs, end, want)
}

/// Whether the entries replay from the words.
fn stands(alloc: Global, words: &[u32], entries: &[Entry]) -> Result<bool, AllocError> {
    replays(alloc, &guest(alloc, words)?, entries)
}

/// A word, x1, x2, and x3 after it.
const VALUES: [(u32, u32, u32, u32); 6] = [
    (0x0220_c1b3, 7, 0, 0xffff_ffff),
    (0x0220_e1b3, 7, 0, 7),
    (0x0220_c1b3, 0x8000_0000, 0xffff_ffff, 0x8000_0000),
    (0x0220_e1b3, 0x8000_0000, 0xffff_ffff, 0),
    (0x0220_a1b3, 0xffff_ffff, 0xffff_ffff, 0xffff_ffff),
    (0x0220_b1b3, 0xffff_ffff, 0xffff_ffff, 0xffff_fffe),
];

/// Three words, and the count, the cause and the value of the halt.
const HALTS: [([u32; 3], u64, u32, u32); 4] = [
    ([0x8000_00b7, 0x00b0_8093, 0x0000_8067], 3, 4, 0x8000_000a),
    ([0x0000_0163, 0, 0], 1, 4, 0x8000_0002),
    ([0x8000_00b7, 0x0010_9103, 0], 2, 5, 0x8000_0001),
    ([0, 0, 0], 1, 3, 0),
];

#[test]
fn values(rt: HostRuntime) -> Result<(), Fail> {
    for (word, a, b, want) in VALUES {
        let mut state = guest(rt.alloc(), &[word])?;
        state.hart.x[1] = a;
        state.hart.x[2] = b;
        assert_eq!(rt; state.count, 0);
        let after = step(rt.alloc(), &state)?;
        assert_eq!(rt; after.state.hart.x[3], want, "{word:08x}");
    }
    Ok(())
}

#[test]
fn halts(rt: HostRuntime) -> Result<(), Fail> {
    for (words, count, cause, value) in HALTS {
        let ends = runs(rt.alloc(), &words, &[], 100, &[halt(count, cause, value)])?;
        assert!(rt; ends, "{cause} {value:x}");
    }
    let stays = [0x8000_00b7, 0x0090_8093, 0x0000_8067];
    assert!(rt; runs(rt.alloc(), &stays, &[], 100, &[])?);
    Ok(())
}

#[test]
fn entries(rt: HostRuntime) -> Result<(), Fail> {
    let alloc = rt.alloc();
    let line = out(alloc, 5, b"H\n")?;
    let whole = [line, halt(6, 1, 0)];
    assert!(rt; runs(alloc, PRINTS, &[], 100, &whole)?);
    assert!(rt; stands(alloc, PRINTS, &whole)?);
    assert!(rt; stands(alloc, PRINTS, &whole[..1])?);
    assert!(rt; stands(alloc, PRINTS, &[])?);
    assert!(rt; !stands(alloc, PRINTS, &[out(alloc, 4, b"H\n")?, halt(6, 1, 0)])?);

    let last = [out(alloc, 1024, b"H")?, halt(1024, 1, 0), snap(1024)];
    assert!(rt; runs(alloc, COUNTS, &[], 2000, &last)?);
    assert!(rt; stands(alloc, COUNTS, &last)?);
    Ok(())
}

#[test]
fn clocks(rt: HostRuntime) -> Result<(), Fail> {
    let alloc = rt.alloc();
    let given = |count| Entry::Input(clock(count, 7));
    let want = [given(1), halt(3, 1, 0)];
    assert!(rt; runs(alloc, ASKS, &[clock(1, 7)], 100, &want)?);
    assert!(rt; stands(alloc, ASKS, &want)?);
    assert!(rt; !stands(alloc, ASKS, &[given(1), given(1), halt(3, 1, 0)])?);
    assert!(rt; !stands(alloc, READS, &[given(1)])?);
    Ok(())
}

fn newline(alloc: Global, count: u64) -> Result<Given, AllocError> {
    let input = Input::Console(vec![in alloc; 10u8; 1]?);
    Ok(Given { count, input })
}

/// A second newline inside the handler enters it again; a machine of version 1 has no doorbell.
#[test]
fn doorbell(rt: HostRuntime) -> Result<(), Fail> {
    let alloc = rt.alloc();
    let rings = booted(alloc, 2, RINGS)?;
    let one = [Entry::Input(newline(alloc, 10)?), out(alloc, 12, b"\n")?];
    assert!(rt; runs_from(alloc, &rings, &[newline(alloc, 10)?], 20, &one)?);
    let two = [
        Entry::Input(newline(alloc, 10)?),
        Entry::Input(newline(alloc, 11)?),
        out(alloc, 12, b"\n")?,
        out(alloc, 15, b"\n")?,
    ];
    let inputs = [newline(alloc, 10)?, newline(alloc, 11)?];
    assert!(rt; runs_from(alloc, &rings, &inputs, 40, &two)?);
    assert!(rt; runs(alloc, RINGS, &[], 20, &[halt(4, 8, 0x1000_0030)])?);
    Ok(())
}

/// Four inputs of 256 bytes fill the console queue, and one byte more is refused.
#[test]
fn full_console(rt: HostRuntime) -> Result<(), Fail> {
    let alloc = rt.alloc();
    let mut state = guest(alloc, &[0x0000_006f])?;
    for _ in 0..4 {
        let input = Input::Console(vec![in alloc; 0x41u8; 256]?);
        let None = refusal(&state, &input) else {
            panic!(rt; "refused");
        };
        state = take(alloc, &state, &input)?;
    }
    let more = Input::Console(vec![in alloc; 0x41u8; 1]?);
    assert_eq!(rt; refusal(&state, &more), Some(NotTaken::Full));
    Ok(())
}
