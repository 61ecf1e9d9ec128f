//! A recorder that is open.

ghost use Rattle.recorder.specs.Props.{props};
ghost use Rattle.std.specs.Prelude.{◌≡◌, None};
ghost use Rattle.jrnl_store.specs.Kept.{kept as kept_of};
ghost use Rattle.record_ready.specs.Ready.{IsSteady};
ghost use Rattle.record_turn.specs.Desk.{IsReady};

use record_parts::Stop;
use record_turn::Desk;

/// The parts of a recorder, and why it has stopped.
#[derive(Drop)]
pub struct Recorder {
    pub(crate) desk: Desk,
    pub(crate) stop: Option<Stop>,
    pub(crate) ghost ready: { stop ≡ None → IsReady (kept_of desk.store.journal) desk.store.batch } by { Prim.hlevel props },
    pub(crate) ghost steady: { stop ≡ None → IsSteady desk.machine.state } by { Prim.hlevel props },
}
