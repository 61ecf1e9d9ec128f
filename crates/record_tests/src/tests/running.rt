//! The runs of recorders: each opens a store, makes turns until nothing is left, and seals.

use crate::tests::stores::signer;
use crate::tests::untold::Untold;
use avm_model::NotTaken;
use avm_outside::{Due, ListFeed, MemOutlet};
use recorder::{Recorder, Sealed, Turn};
use std::alloc::Global;

/// The events of a run, all due at 0, the count of its end, and the calls on its feed and outlet that fail.
#[derive(Clone, Copy)]
pub struct Script<'a> {
    pub lines: &'a [&'a [u8]],
    pub packets: &'a [&'a [u8]],
    pub end: u64,
    pub feed_fails: &'a [u64],
    pub outlet_fails: &'a [u64],
}

impl<'a> Script<'a> {
    /// Lines of the console and packets, without a failing call.
    pub fn new(lines: &'a [&'a [u8]], packets: &'a [&'a [u8]], end: u64) -> Script<'a> {
        Script {
            lines,
            packets,
            end,
            feed_fails: &[],
            outlet_fails: &[],
        }
    }

    fn feed(&self, alloc: Global) -> Option<ListFeed> {
        let mut feed = ListFeed::new(alloc, Vec::from_slice(alloc, self.feed_fails).ok()?).ok()?;
        self.add_lines(&mut feed)?;
        self.add_packets(&mut feed)?;
        if self.end >= 1 << 62 {
            return None;
        }
        feed.set_end(self.end);
        Some(feed)
    }

    fn add_lines(&self, feed: &mut ListFeed) -> Option<()> {
        for &line in self.lines {
            if line.is_empty() || line.len() > 256 {
                return None;
            }
            feed.push(0, Due::Console(line.len()), line).ok()?;
        }
        Some(())
    }

    fn add_packets(&self, feed: &mut ListFeed) -> Option<()> {
        for &packet in self.packets {
            if packet.is_empty() || packet.len() > 20000 {
                return None;
            }
            feed.push(0, Due::Packet(packet.len()), packet).ok()?;
        }
        Some(())
    }

    fn outlet(&self, alloc: Global) -> Option<MemOutlet> {
        MemOutlet::new(alloc, Vec::from_slice(alloc, self.outlet_fails).ok()?).ok()
    }
}

/// What a run left: how its turns and its seal ended, what a turn and a seal behind a stop answer, what was dropped and released, the
/// number of the last entry and of the used leaves, and how many calls were made on the disk when it was open.
#[derive(Drop)]
pub struct Ran {
    pub turn: Turn,
    pub sealed: Sealed,
    pub behind: Option<(Turn, Sealed)>,
    pub drops: Vec<NotTaken>,
    pub outlet: MemOutlet,
    pub last: u64,
    pub bound: u64,
    pub before: usize,
}

/// More turns than any run of the tests makes.
const MOST_TURNS: usize = 100;

/// Makes turns until one ends the run, and gives that one.
fn turns(
    recorder: &mut Recorder,
    disk: &mut Untold,
    feed: &mut ListFeed,
    outlet: &mut MemOutlet,
    drops: &mut Vec<NotTaken>,
) -> Option<Turn> {
    for _ in 0..MOST_TURNS {
        match recorder.turn(disk, feed, outlet) {
            Turn::Dropped(why) => drops.push(why).ok()?,
            Turn::Ran(_) | Turn::Took | Turn::Resent => {}
            turn => return Some(turn),
        }
    }
    None
}

/// Runs a script on a disk. None where the store isn't opened, or memory is short.
pub fn run(alloc: Global, disk: &mut Untold, script: Script<'_>) -> Option<Ran> {
    let mut recorder = Recorder::attach(alloc, disk, signer(alloc)?).ok()?;
    let before = disk.disk.calls();
    let mut feed = script.feed(alloc)?;
    let mut outlet = script.outlet(alloc)?;
    let mut drops = Vec::new(alloc);
    let turn = turns(&mut recorder, disk, &mut feed, &mut outlet, &mut drops)?;
    let sealed = recorder.seal(disk, &mut outlet);
    let behind = match (turn, sealed) {
        (Turn::Stopped(_), _) | (_, Sealed::Stopped(_)) => Some((
            recorder.turn(disk, &mut feed, &mut outlet),
            recorder.seal(disk, &mut outlet),
        )),
        _ => None,
    };
    Some(Ran {
        turn,
        sealed,
        behind,
        drops,
        outlet,
        last: recorder.last(),
        bound: recorder.bound(),
        before,
    })
}

/// The number of the last entry of a store and of its used leaves. None where it isn't opened.
pub fn standing(alloc: Global, disk: &mut Untold) -> Option<(u64, u64)> {
    let recorder = Recorder::attach(alloc, disk, signer(alloc)?).ok()?;
    Some((recorder.last(), recorder.bound()))
}
