//! Guests run by hand.

ghost use Rattle.std.specs.Prelude.{IsTrue, ◌-◌, ◌^◌, ◌<◌, ◌≤◌, IfOk};
ghost use Rattle.avm_model.specs.Bounds.{are_rows, none_past};

use guest_dev::{Devices, Peer};
use guest_machine::{Input, Line, Machine, NotTaken, Outs, Sent, Status};
use rv32_mem::Ram;
use std::alloc::{AllocError, Global};
use test_guests::{COUNTS, ECHO, PRINTS, READS, RINGS};

/// What a run put out: the last of each kind with its count, and how many.
#[derive(Clone, Copy)]
struct Seen {
    line: Line,
    line_at: u64,
    halt: Option<(u32, u32)>,
    halt_at: u64,
    sent: Option<Sent>,
    sent_at: u64,
    snap_at: u64,
    outputs: u64,
}

fn nothing() -> Seen {
    Seen {
        line: Line {
            len: 0,
            bytes: [0; 128],
        },
        line_at: 0,
        halt: None,
        halt_at: 0,
        sent: None,
        sent_at: 0,
        snap_at: 0,
        outputs: 0,
    }
}

fn note(seen: &mut Seen, outs: &Outs, count: u64) {
    if outs.line.len > 0 {
        seen.line = outs.line;
        seen.line_at = count;
        seen.outputs = seen.outputs.wrapping_add(1);
    }
    if let Some(sent) = outs.sent {
        seen.sent = Some(sent);
        seen.sent_at = count;
        seen.outputs = seen.outputs.wrapping_add(1);
    }
    if let Some(halt) = outs.halt {
        seen.halt = Some(halt);
        seen.halt_at = count;
        seen.outputs = seen.outputs.wrapping_add(1);
    }
    if outs.snap {
        seen.snap_at = count;
        seen.outputs = seen.outputs.wrapping_add(1);
    }
}

/// Makes steps up to a count, while there are any.
fn run(machine: &mut Machine, until: u32) -> Seen {
    let mut seen = nothing();
    for _ in 0..until {
        if machine.count() >= until as u64 || !machine.can_step() {
            break;
        }
        let outs = machine.step();
        note(&mut seen, &outs, machine.count());
    }
    seen
}

/// One page that begins with the words.
fn ram_with(alloc: Global, words: &[u32]) -> Option<Ram> {
    let mut ram = Ram::new(alloc, 1).ok()?;
    let mut addr = 0x8000_0000u32;
    for &word in words {
        let _stored = ram.store(addr, 4, word);
        addr = addr.wrapping_add(4);
    }
    Some(ram)
}

#[tactic(auto, using(guest_machine::proofs::Heads::new_head))]
fn guest(alloc: Global, words: &[u32], rows: Vec<Peer>) -> Option<Machine>
    requires rows { IsTrue (are_rows 0 0 rows.items) }
    requires none { IsTrue (none_past 0 rows.items) }
    requires sent { IsTrue (none_past (2 ^ 62 - 1) rows.items) }
{
    let ram = ram_with(alloc, words)?;
    let Ok(devices) = Devices::new(alloc, 0, rows) else {
        return None;
    };
    let _pages = ram.pages();
    Some(Machine::new(devices, ram, 1024, 0x8000_0000))
}

/// A machine of version 2.
#[tactic(auto, using(guest_machine::proofs::Heads::new_head_bell))]
fn with_bell(alloc: Global, words: &[u32], rows: Vec<Peer>) -> Option<Machine>
    requires rows { IsTrue (are_rows 0 0 rows.items) }
    requires none { IsTrue (none_past 0 rows.items) }
    requires sent { IsTrue (none_past (2 ^ 62 - 1) rows.items) }
{
    let ram = ram_with(alloc, words)?;
    let Ok(devices) = Devices::with_bell(alloc, 0, rows) else {
        return None;
    };
    let _pages = ram.pages();
    Some(Machine::new(devices, ram, 1024, 0x8000_0000))
}

fn alone(alloc: Global, words: &[u32]) -> Option<Machine> {
    guest(alloc, words, Vec::new(alloc))
}

/// The row of peer 1.
#[tactic(auto, unfolding(avm_model::specs::LmsValid::has_types))]
fn one_row(alloc: Global) -> Result<Vec<Peer>, AllocError>
    ensures rows { IfOk result (λ v. IsTrue (are_rows 0 0 v.items)) }
    ensures none { IfOk result (λ v. IsTrue (none_past 0 v.items)) }
    ensures sent { IfOk result (λ v. IsTrue (none_past (2 ^ 62 - 1) v.items)) }
{
    let mut key = [0; 56];
    key[3] = 5;
    key[7] = 4;
    let row = Peer {
        id: 1,
        key,
        sent: 0,
        acked: 0,
        received: 0,
    };
    Ok(vec![in alloc; row]?)
}

#[test]
fn halts(rt: HostRuntime) {
    let guests: [(&[u32], u64, u32, u32); 5] = [
        (&[0x8000_00b7, 0x00b0_8093, 0x0000_8067], 3, 4, 0x8000_000a),
        (&[0x0000_0163], 1, 4, 0x8000_0002),
        (&[0x8000_00b7, 0x0010_9103], 2, 5, 0x8000_0001),
        (&[0x0000_0000], 1, 3, 0),
        (PRINTS, 6, 1, 0),
    ];
    for &(words, count, cause, value) in &guests {
        let mut machine = alone(rt.alloc(), words).expect(&rt, "memory");
        let seen = run(&mut machine, 100);
        assert_eq!(rt; seen.halt, Some((cause, value)));
        assert_eq!(rt; (seen.halt_at, machine.count()), (count, count));
        assert!(rt; machine.status() == Status::Halted && !machine.can_step());
        assert!(rt; machine.inject(Input::Console(b"x")) == Err(NotTaken::Halted));
    }
}

#[test]
fn jumps_back(rt: HostRuntime) {
    let mut machine = alone(rt.alloc(), &[0x8000_00b7, 0x0090_8093, 0x0000_8067]).expect(
        &rt, "memory",
    );
    let seen = run(&mut machine, 100);
    assert!(rt;
        seen.halt.is_none()
            && machine.status() == Status::Running
            && machine.hart().pc == 0x8000_0008
    );
}

#[test]
fn puts_out(rt: HostRuntime) {
    let mut machine = alone(rt.alloc(), COUNTS).expect(&rt, "memory");
    let seen = run(&mut machine, 2000);
    assert_eq!(rt;
        (seen.line_at, seen.line.len, seen.line.bytes[0]),
        (1024, 1, 0x48)
    );
    assert_eq!(rt;
        (seen.halt, seen.halt_at, seen.snap_at, seen.outputs),
        (Some((1, 0)), 1024, 1024, 3)
    );
}

#[test]
fn fills_a_line(rt: HostRuntime) {
    // The loop stores a byte in every second step.
    let mut long = alone(rt.alloc(), &[0x1000_02b7, 0x0002_a023, 0xffdf_f06f]).expect(
        &rt, "memory",
    );
    let seen = run(&mut long, 500);
    assert_eq!(rt; (seen.line_at, seen.line.len, seen.outputs), (256, 128, 1));
}

#[test]
fn clocks(rt: HostRuntime) {
    let mut machine = alone(
        rt.alloc(),
        &[0x1000_02b7, 0x0082_a883, 0x00c2_a903, 0x0000_0073],
    )
    .expect(&rt, "memory");
    assert!(rt; machine.inject(Input::Clock(7)) == Err(NotTaken::NotAsked));
    let _seen = run(&mut machine, 100);
    assert_eq!(rt; machine.count(), 1);
    assert!(rt; machine.asks() && !machine.can_step());
    assert!(rt; machine.inject(Input::Clock(0x5_0000_0007)).is_ok());
    assert!(rt; machine.inject(Input::Clock(8)) == Err(NotTaken::NotAsked));
    assert!(rt; machine.inject(Input::Console(b"x")) == Err(NotTaken::ClockPending));
    let seen = run(&mut machine, 100);
    assert_eq!(rt; (seen.halt, seen.halt_at), (Some((1, 0)), 4));
    assert_eq!(rt; (machine.hart().x[17], machine.hart().x[18]), (7, 5));
}

#[test]
fn fills(rt: HostRuntime) {
    let mut reader = alone(rt.alloc(), READS).expect(&rt, "memory");
    let _seen = run(&mut reader, 1);
    assert!(rt; reader.inject(Input::Clock(7)) == Err(NotTaken::NotAsked));
    // A full console queue.
    for _ in 0..4u32 {
        assert!(rt; reader.inject(Input::Console(&[1; 256])).is_ok());
    }
    assert!(rt; reader.inject(Input::Console(&[1])) == Err(NotTaken::Full));
}

#[test]
fn echoes(rt: HostRuntime) {
    let mut machine = alone(rt.alloc(), ECHO).expect(&rt, "memory");
    let _seen = run(&mut machine, 100);
    assert_eq!(rt; machine.count(), 4);
    assert!(rt; machine.status() == Status::Waiting && !machine.can_step());
    assert!(rt; machine.inject(Input::Console(b"ok\n")).is_ok());
    assert!(rt; machine.status() == Status::Running);
    let seen = run(&mut machine, 100);
    assert_eq!(rt;
        (
            seen.line.len,
            seen.line.bytes[0],
            seen.line.bytes[2],
            seen.outputs
        ),
        (3, 0x6f, 10, 1)
    );
    assert!(rt; machine.status() == Status::Waiting);
    assert!(rt; machine.inject(Input::Console(&[4])).is_ok());
    let seen = run(&mut machine, 200);
    assert_eq!(rt; seen.halt, Some((1, 0)));
}

#[test]
fn goes_on_with_input(rt: HostRuntime) {
    // Not to wait with something in the queue.
    let mut ready = alone(rt.alloc(), ECHO).expect(&rt, "memory");
    assert!(rt; ready.inject(Input::Console(b"x")).is_ok());
    let _seen = run(&mut ready, 4);
    assert!(rt; ready.status() == Status::Running && ready.count() == 4);
}

#[test]
fn sends_back(rt: HostRuntime) {
    let rows = one_row(rt.alloc()).expect(&rt, "memory");
    let mut machine = guest(rt.alloc(), ECHO, rows).expect(&rt, "memory");
    assert!(rt; message(&mut machine, 1, 1).is_ok());
    let _seen = run(&mut machine, 30000);
    assert_eq!(rt; machine.count(), 21);
    assert!(rt; machine.asks() && machine.inject(Input::Clock(0)).is_ok());
    let seen = run(&mut machine, 30000);
    assert_eq!(rt; seen.sent_at, 24600);
    let Some(sent) = seen.sent else {
        return;
    };
    assert_eq!(rt; (sent.peer, sent.number, sent.len), (1, 1, 4));
    assert!(rt; machine.devices().window().starts_with(b"ping"));
    assert!(rt; machine.status() == Status::Waiting && seen.snap_at == 24576);
    let acked = Input::Acked { peer: 1, number: 1 };
    assert!(rt; machine.inject(acked).is_ok() && machine.status() == Status::Running);
    assert!(rt; machine.inject(acked) == Err(NotTaken::NotOutstanding));
}

#[test]
fn fills_messages(rt: HostRuntime) {
    let rows = one_row(rt.alloc()).expect(&rt, "memory");
    let mut machine = guest(rt.alloc(), ECHO, rows).expect(&rt, "memory");
    assert!(rt; message(&mut machine, 2, 1) == Err(NotTaken::UnknownPeer));
    assert!(rt; message(&mut machine, 1, 3) == Err(NotTaken::WrongNumber));
    for number in 1..9u64 {
        assert!(rt; message(&mut machine, 1, number).is_ok());
        assert!(rt; message(&mut machine, 1, number) == Err(NotTaken::Repeated));
    }
    assert!(rt; message(&mut machine, 1, 9) == Err(NotTaken::Full));
}

fn message(machine: &mut Machine, peer: u32, number: u64) -> Result<(), NotTaken>
    requires first { 1 ≤ number }
    requires last { number < 100 }
{
    machine.inject(Input::Message {
        peer,
        number,
        payload: b"ping",
    })
}

/// A guest with a handler, the counts at which a line end is typed in (0 for none), the count at its end, and what is seen
/// then: pc, the vector, the saved pc and the state of the bell, and the halt.
#[derive(Clone, Copy)]
struct Handled {
    words: &'static [u32],
    typed: [u32; 2],
    end: u32,
    pc: u32,
    bell: (u32, u32, u8),
    halt: Option<(u32, u32)>,
}

/// As `RINGS`, but the handler sets the vector to 0.
const CLEARS: &[u32] = &[
    0x1000_02b7,
    0x0000_0317,
    0x0103_0313,
    0x0262_a823,
    0x0000_006f,
    0x0202_a823,
    0x0202_ac23,
    0x0000_006f,
];

/// The same with a vector that is no multiple of 4, and a handler that halts.
const CALLS: &[u32] = &[
    0x1000_02b7,
    0x0000_0317,
    0x0133_0313,
    0x0262_a823,
    0x0000_006f,
    0x0000_0073,
];

/// Returns without a handler, and jumps to itself.
const RETURNS: &[u32] = &[0x1000_02b7, 0x0202_ac23, 0x0000_006f];

const LOOP: u32 = 0x8000_0010;

const HANDLER: u32 = 0x8000_0014;

fn seen_at(
    words: &'static [u32],
    typed: [u32; 2],
    end: u32,
    pc: u32,
    bell: (u32, u32, u8),
) -> Handled {
    Handled {
        words,
        typed,
        end,
        pc,
        bell,
        halt: None,
    }
}

#[test]
fn rings(rt: HostRuntime) {
    let rows = [
        seen_at(RINGS, [0, 0], 5, LOOP, (HANDLER, 0, 0)),
        seen_at(RINGS, [2, 0], 2, 0x8000_0008, (0, 0, 0)),
        seen_at(RINGS, [10, 0], 10, HANDLER, (HANDLER, LOOP, 1)),
        seen_at(RINGS, [10, 0], 13, LOOP, (HANDLER, LOOP, 0)),
        seen_at(RINGS, [10, 11], 11, 0x8000_0018, (HANDLER, LOOP, 2)),
        seen_at(RINGS, [10, 11], 13, HANDLER, (HANDLER, LOOP, 1)),
        seen_at(RINGS, [10, 11], 16, LOOP, (HANDLER, LOOP, 0)),
        seen_at(CLEARS, [10, 10], 10, HANDLER, (HANDLER, LOOP, 2)),
        seen_at(CLEARS, [10, 10], 12, LOOP, (0, LOOP, 0)),
        seen_at(RETURNS, [0, 0], 2, 0x8000_0008, (0, 0, 0)),
        seen_at(CALLS, [0, 0], 5, LOOP, (HANDLER, 0, 0)),
        Handled {
            halt: Some((1, 0)),
            ..seen_at(CALLS, [10, 0], 12, HANDLER, (HANDLER, LOOP, 1))
        },
    ];
    for row in rows {
        let mut machine = with_bell(rt.alloc(), row.words, Vec::new(rt.alloc())).expect(
            &rt, "memory",
        );
        for at in row.typed {
            if at > 0 {
                let _seen = run(&mut machine, at);
                assert!(rt; machine.inject(Input::Console(b"\n")).is_ok());
            }
        }
        let seen = run(&mut machine, row.end);
        let bell = machine.devices().bell();
        assert_eq!(rt; (machine.hart().pc, seen.halt), (row.pc, row.halt));
        assert_eq!(rt; (bell.vector, bell.saved, bell.state), row.bell);
    }
    // In version 1 the store to BELL_VEC halts.
    let mut machine = alone(rt.alloc(), RINGS).expect(&rt, "memory");
    let seen = run(&mut machine, 20);
    assert_eq!(rt; (seen.halt, machine.count()), (Some((8, 0x1000_0030)), 4));
}
