//! Entries, replayed from a state.

ghost use Rattle.std.specs.Prelude.{◌≡◌, None};
ghost use Rattle.avm_model.specs.Frame.{frames_of};
ghost use Rattle.avm_model.specs.Holds.{upto};
ghost use Rattle.avm_model.specs.Machine.{State};
ghost use Rattle.avm_model.specs.Reference.{IsFaultNumber, timed, entries_of};
ghost use Rattle.avm_model.specs.Rerun.{start, Replays, Stands};

use log_entry::Frames;
use replayer::Replay;

/// The number of the first of these entries that doesn't replay.
pub fn fault_in(replay: Replay, frames: Frames<'_>) -> Option<u64>
    requires { replay.fault ≡ None }
    ensures { (s : State) → replay.stand ≡ start s → IsFaultNumber s (frames_of frames.entry) result }
{
    let mut replay = replay;
    let mut frames = frames;
    while let Some(frame) = frames.next() {
        if let Err(fault) = replay.entry(&frame) {
            return Some(fault.seq);
        }
    }
    None
}

/// The replay behind the entries up to that of a number, where all of these entries replay.
pub fn replay_to(replay: Replay, frames: Frames<'_>, number: u64) -> Replay
    requires { replay.fault ≡ None }
    ensures { (s : State) → replay.stand ≡ start s → Replays timed s (entries_of (frames_of frames.entry)) → Stands timed s (entries_of (upto number (frames_of frames.entry))) result.stand }
{
    let mut replay = replay;
    let mut frames = frames;
    while let Some(frame) = frames.next() {
        if let Err(_) = replay.entry(&frame) {
            return replay;
        }
        if frame.seq == number {
            return replay;
        }
    }
    replay
}
