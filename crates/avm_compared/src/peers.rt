//! Guests with a peer, messages, acknowledgements and a handler, on both machines in both versions.
ghost use Rattle.std.specs.Prelude.{IsTrue, ◌-◌, ◌^◌, ◌≤◌, All, length, IfOk};
ghost use Rattle.avm_model.specs.Bounds.{are_rows, none_past};

use crate::both::{give_both, same_state, step_both};
use avm_plain::{Devices as PlainDevices, Input as PlainInput, Message, State};
use guest_dev::{Devices, Peer};
use guest_machine::{Input, Machine};
use rv32_mem::Ram;
use std::alloc::{AllocError, Global};
use std::test::Fail;
use test_guests::{ANSWERS, ECHO, RINGS};

/// What comes in. Messages and acknowledgements are those of peer 1.
#[derive(Clone, Copy)]
enum Event {
    Console(&'static [u8]),
    Clock(u64),
    Message(u64, &'static [u8]),
    Acked(u64),
}

/// What comes in before the step of a number.
type Schedule = &'static [(u32, Event)];

/// Inside the handler, at its return, behind it, and twice at once.
const BELLS: Schedule = &[
    (6, Event::Console(b"a")),
    (7, Event::Console(b"b\n")),
    (12, Event::Clock(9)),
    (17, Event::Message(1, b"x")),
    (18, Event::Console(b"c")),
    (30, Event::Console(b"d\n")),
    (30, Event::Console(b"e")),
];

/// A message of each length's kind, numbers that are refused, and acknowledgements, one of them too early.
const TALKS: Schedule = &[
    (3, Event::Acked(1)),
    (12, Event::Message(1, b"ping")),
    (14, Event::Message(1, b"again")),
    (15, Event::Message(3, b"late")),
    (16, Event::Console(b"H\n")),
    (16, Event::Message(2, b"")),
    (40, Event::Acked(1)),
    (41, Event::Acked(3)),
    (60, Event::Message(3, b"0123456789abcdef0123456789abcdef")),
    (90, Event::Acked(2)),
    (90, Event::Clock(0x7_0000_0009)),
    (120, Event::Console(b"\x04")),
];

/// A message that is echoed behind a clock, and a byte that halts.
const ECHOES: Schedule = &[
    (8, Event::Message(1, b"hello")),
    (16, Event::Console(b"ok\n")),
    (40, Event::Clock(17)),
    (64, Event::Clock(18)),
    (65, Event::Clock(19)),
    (66, Event::Clock(20)),
    (90, Event::Console(b"\x04")),
];

/// The row of peer 1.
#[tactic(auto, unfolding(avm_model::specs::LmsValid::has_types))]
fn one_row(alloc: Global) -> Result<Vec<Peer>, AllocError>
    ensures rows { IfOk result (λ v. IsTrue (are_rows 0 0 v.items)) }
    ensures none { IfOk result (λ v. IsTrue (none_past 0 v.items)) }
    ensures sent { IfOk result (λ v. IsTrue (none_past (2 ^ 62 - 1) v.items)) }
    ensures unsent { IfOk result (λ v. All (λ p. p.sent ≤ 0) v.items) }
{
    let mut key = [0; 56];
    key[3] = 5;
    key[7] = 4;
    let row = Peer {
        id: 1,
        key,
        sent: 0,
        acked: 0,
        received: 0,
    };
    Ok(vec![in alloc; row]?)
}

/// One page that begins with the words.
fn ram_with(alloc: Global, words: &[u32]) -> Option<Ram> {
    let mut ram = Ram::new(alloc, 1).ok()?;
    let mut addr = 0x8000_0000u32;
    for &word in words {
        let _stored = ram.store(addr, 4, word);
        addr = addr.wrapping_add(4);
    }
    Some(ram)
}

#[tactic(auto, using(guest_machine::proofs::Heads::new_head))]
fn first(alloc: Global, words: &[u32]) -> Option<Machine> {
    let ram = ram_with(alloc, words)?;
    let rows = one_row(alloc).ok()?;
    let Ok(devices) = Devices::new(alloc, 0, rows) else {
        return None;
    };
    let _pages = ram.pages();
    Some(Machine::new(devices, ram, 1024, 0x8000_0000))
}

#[tactic(auto, using(guest_machine::proofs::Heads::new_head_bell))]
fn second(alloc: Global, words: &[u32]) -> Option<Machine> {
    let ram = ram_with(alloc, words)?;
    let rows = one_row(alloc).ok()?;
    let Ok(devices) = Devices::with_bell(alloc, 0, rows) else {
        return None;
    };
    let _pages = ram.pages();
    Some(Machine::new(devices, ram, 1024, 0x8000_0000))
}

fn fast(alloc: Global, version: u8, words: &[u32]) -> Option<Machine> {
    if version == 2 {
        second(alloc, words)
    } else {
        first(alloc, words)
    }
}

/// The same with the RAM of the fast one.
fn plain(alloc: Global, version: u8, machine: &Machine) -> Result<State, AllocError> {
    let ram = Vec::from_slice(alloc, machine.ram().bytes())?;
    let devices = PlainDevices::fresh(alloc, version, 0, one_row(alloc)?)?;
    Ok(State::initial(devices, ram, 1024, 0x8000_0000))
}

fn message(alloc: Global, number: u64, payload: &[u8]) -> Result<PlainInput, AllocError>
    requires { length payload.now ≤ 1024 }
{
    let payload = Vec::from_slice(alloc, payload)?;
    Ok(PlainInput::Message {
        number,
        message: Message { peer: 1, payload },
    })
}

/// Gives an event to both machines; none where they answer differently.
fn offer(
    alloc: Global,
    machine: &mut Machine,
    state: State,
    event: Event,
) -> Result<Option<State>, AllocError> {
    match event {
        Event::Console(bytes) => {
            let input = PlainInput::Console(Vec::from_slice(alloc, bytes)?);
            let answer = machine.inject(Input::Console(bytes));
            give_both(alloc, answer, state, input)
        }
        Event::Clock(value) => {
            let answer = machine.inject(Input::Clock(value));
            give_both(alloc, answer, state, PlainInput::Clock(value))
        }
        Event::Message(number, payload) => {
            if payload.len() > 1024 || number == 0 || number >= 1 << 62 {
                return Ok(None);
            }
            let input = message(alloc, number, payload)?;
            let answer = machine.inject(Input::Message {
                peer: 1,
                number,
                payload,
            });
            give_both(alloc, answer, state, input)
        }
        Event::Acked(number) => {
            if number == 0 || number >= 1 << 62 {
                return Ok(None);
            }
            let answer = machine.inject(Input::Acked { peer: 1, number });
            give_both(alloc, answer, state, PlainInput::Acked { peer: 1, number })
        }
    }
}

/// Gives both machines what comes in before a step.
fn offer_all(
    alloc: Global,
    machine: &mut Machine,
    state: State,
    schedule: Schedule,
    at: u32,
) -> Result<Option<State>, AllocError> {
    let mut state = state;
    for &(when, event) in schedule {
        if when == at {
            let Some(next) = offer(alloc, machine, state, event)? else {
                return Ok(None);
            };
            state = next;
        }
    }
    Ok(Some(state))
}

/// Whether both machines agree at each step of the words, and over all that comes in.
fn agree(
    alloc: Global,
    version: u8,
    words: &[u32],
    schedule: Schedule,
    steps: u32,
) -> Result<bool, AllocError> {
    let Some(mut machine) = fast(alloc, version, words) else {
        return Ok(false);
    };
    let mut state = plain(alloc, version, &machine)?;
    for at in 0..steps {
        let Some(given) = offer_all(alloc, &mut machine, state, schedule, at)? else {
            return Ok(false);
        };
        let Some(next) = step_both(alloc, &mut machine, given)? else {
            return Ok(false);
        };
        state = next;
    }
    Ok(same_state(&machine, &state))
}

#[test]
fn handlers_and_messages(rt: HostRuntime) -> Result<(), Fail> {
    let alloc = rt.alloc();
    for (name, words, schedule) in [
        ("rings", RINGS, BELLS),
        ("answers", ANSWERS, TALKS),
        ("answers as it is rung", ANSWERS, BELLS),
        ("echo", ECHO, ECHOES),
    ] {
        assert!(rt; agree(alloc, 1, words, schedule, 140)?, "{name}, version 1");
        assert!(rt; agree(alloc, 2, words, schedule, 140)?, "{name}, version 2");
    }
    Ok(())
}
