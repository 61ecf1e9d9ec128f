//! What a recorder is made of, and what it shows.

ghost use Rattle.std.specs.Prelude.{◌≡◌, ◌+◌, ◌<◌, ◌^◌, None};
ghost use Rattle.jrnl_store.specs.Kept.{kept as kept_of};
ghost use Rattle.record_ready.specs.Ready.{IsSteady};
ghost use Rattle.record_turn.specs.Desk.{IsReady};
ghost use Rattle.recorder.specs.Recorder.{desk_of, stop_of};

use crate::recorder::Recorder;
use guest_machine::Machine;
use lms_signer::Signer;
use record_turn::Desk;

impl Recorder {
    /// The recorder of the parts that an opening made. It takes no memory.
    pub fn new(desk: Desk) -> Recorder
        requires ready { IsReady (kept_of desk.store.journal) desk.store.batch }
        requires steady { IsSteady desk.machine.state }
        ensures parts { desk_of result ≡ desk }
        ensures stop { stop_of result ≡ None }
    {
        Recorder { desk, stop: None }
    }

    /// The machine, behind the entries of the journal and of the batch that isn't saved yet.
    pub fn machine(&self) -> &Machine
        ensures { result.now ≡ (desk_of self.now).machine }
    {
        &self.desk.machine
    }

    /// The number of the journal's last entry.
    pub fn last(&self) -> u64
        ensures value { result + 1 ≡ (kept_of (desk_of self.now).store.journal).standing.next }
        ensures low { result + 1 < 2 ^ 62 }
    {
        self.desk.store.journal.last()
    }

    /// How many leaves of the key the journal has used.
    pub fn bound(&self) -> u64
        ensures { result ≡ (kept_of (desk_of self.now).store.journal).standing.used }
    {
        self.desk.store.journal.bound()
    }

    /// Gives the signer back. What isn't saved is dropped.
    pub fn into_signer(self) -> Signer
        ensures { result ≡ (desk_of self).press.key }
    {
        self.desk.press.into_signer()
    }
}
