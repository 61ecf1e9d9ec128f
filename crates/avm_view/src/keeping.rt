// A replay that leaves a machine aside behind one of its entries.
ghost use Rattle.std.specs.Prelude.{◌≡◌, None, IfOk, IfSome};
ghost use Rattle.avm_model.specs.Frame.{frames_of};
ghost use Rattle.avm_model.specs.Machine.{State};
ghost use Rattle.avm_model.specs.Reference.{IsFaultNumber};
ghost use Rattle.avm_model.specs.Rerun.{start};
ghost use Rattle.avm_view.specs.Keeping.{IsAside};

use avm_num::{NoMemory, Room};
use guest_machine::Machine;
use log_entry::{Content, Frames, content};
use replayer::Replay;
use rv32_mem::Ram;
use snap_state::{head_len, machine_of, put_head};
use std::alloc::Global;

/// The machine behind an entry, and the entries behind that.
#[derive(Drop)]
pub struct Aside<'a> {
    pub machine: Machine,
    pub frames: Frames<'a>,
}

/// What a replay found: the number of the first entry that doesn't replay, and the machine that was left aside.
#[derive(Drop)]
pub struct Course<'a> {
    pub fault: Option<u64>,
    pub aside: Option<Aside<'a>>,
}

/// A machine in the same state, with no clock pending.
#[tactic(auto, unfolding(avm_num::specs::Room::left))]
fn copy(alloc: Global, machine: &Machine) -> Result<Machine, NoMemory>
    requires { machine.now.state.devices.clock ≡ None }
    ensures { IfOk result (λ m. m.state ≡ machine.now.state) }
{
    let mut head = Room::new(alloc, head_len(machine))?;
    put_head(&mut head, machine);
    let mut ram = Ram::new(alloc, machine.ram().pages())?;
    ram.put(0, machine.ram().bytes());
    machine_of(alloc, head.bytes(), ram)
}

/// The machine left aside in front of the frames; none where a clock is pending.
fn leave<'a>(
    alloc: Global,
    machine: &Machine,
    rest: &'a [u8],
) -> Result<Option<Aside<'a>>, NoMemory>
    ensures { IfOk result (λ left. IfSome left (λ a. (a.machine.state ≡ machine.now.state) × (a.frames ≡ rest.now))) }
{
    if machine.devices().pending() {
        return Ok(None);
    }
    let machine = copy(alloc, machine)?;
    Ok(Some(Aside {
        machine,
        frames: Frames::new(rest),
    }))
}

/// The number of the last snapshot whose entry has a count below this one, or 0. What it is decides no answer, and how many
/// steps lead to the count.
pub fn snapshot_before(frames: Frames<'_>, count: u64) -> u64 {
    let mut number = 0;
    for frame in frames {
        if let Some(Content::Snap { count: at, .. }) = content(&frame) {
            if at < count {
                number = frame.seq;
            }
        }
    }
    number
}

/// The number of the first of these entries that doesn't replay; where all replay, the machine behind the entry of a number,
/// if one has it and no clock is pending there.
pub fn replay_aside<'a>(
    alloc: Global,
    replay: Replay,
    frames: Frames<'a>,
    number: u64,
) -> Result<Course<'a>, NoMemory>
    requires { replay.fault ≡ None }
    ensures fault { IfOk result (λ c. (s : State) → replay.stand ≡ start s → IsFaultNumber s (frames_of frames.entry) c.fault) }
    ensures aside { IfOk result (λ c. (s : State) → replay.stand ≡ start s → IfSome c.aside (λ a. IsAside s (frames_of frames.entry) a.machine.state (frames_of a.frames))) }
{
    let mut replay = replay;
    let mut frames = frames;
    let mut aside = None;
    while let Some(frame) = frames.next() {
        if let Err(fault) = replay.entry(&frame) {
            return Ok(Course {
                fault: Some(fault.seq),
                aside: None,
            });
        }
        if frame.seq == number {
            aside = leave(alloc, replay.machine(), frames.rest())?;
        }
    }
    Ok(Course { fault: None, aside })
}
