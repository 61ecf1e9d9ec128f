// What a recorder shows behind a run.
ghost use Rattle.std.specs.Prelude.{◌≡◌};
ghost use Rattle.jrnl_store.specs.Kept.{kept as kept_of};
ghost use Rattle.recorder.specs.Recorder.{desk_of};
ghost use Rattle.record_command.specs.Runs.{Sums};

use crate::Summary;
use recorder::Recorder;

/// Entries, drops, leaves, and whether the machine runs.
pub fn summary(recorder: &Recorder, dropped: u64) -> Summary
    ensures sums { Sums (kept_of (desk_of recorder.now).store.journal).standing (desk_of recorder.now).machine.state result }
    ensures dropped { result.dropped ≡ dropped }
{
    Summary {
        entries: recorder.last(),
        dropped,
        leaves: recorder.bound(),
        state: recorder.machine().status(),
    }
}
