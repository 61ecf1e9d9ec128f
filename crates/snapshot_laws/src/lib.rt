//! What a snapshot's entry leaves behind it, as a law.
#![tactic(auto)]

ghost use Rattle.std.specs.Prelude.{◌≡◌, ◌++◌, ℕ, List, [], None};
ghost use Rattle.avm_model.specs.Machine.{State};
ghost use Rattle.avm_model.specs.Reference.{Given, Made, timed};
ghost use Rattle.avm_model.specs.Rerun.{Replays, after};
ghost use Rattle.avm_model.specs.Root.{root as root_of};
ghost use Rattle.avm_model.specs.Timed.{Entry};
ghost use Rattle.snapshot_laws.specs.Snapshots.{with_snapshot};

/// Behind a SNAP that replays, no output is pending and no clock waits; its root is that of the state there; and the entries behind
/// it replay from that state alone.
#[tactic(auto, using(crate::proofs::Alone::alone, crate::proofs::Alone::told, crate::proofs::Alone::unasked, crate::proofs::Alone::goes_on))]
pub fn snapshots_stand_alone()
    ensures pending { (s : State) (es : List (Entry Given Made)) (count : ℕ) (r : List ℕ) → Replays timed s (with_snapshot es count r) → (after timed s (with_snapshot es count r)).pending ≡ [] }
    ensures root { (s : State) (es : List (Entry Given Made)) (count : ℕ) (r : List ℕ) → Replays timed s (with_snapshot es count r) → r ≡ root_of (after timed s (with_snapshot es count r)).state }
    ensures clock { (s : State) (es : List (Entry Given Made)) (count : ℕ) (r : List ℕ) → s.devices.clock ≡ None → Replays timed s (with_snapshot es count r) → (after timed s (with_snapshot es count r)).state.devices.clock ≡ None }
    ensures replays { (s : State) (es rest : List (Entry Given Made)) (count : ℕ) (r : List ℕ) → Replays timed s (with_snapshot es count r ++ rest) → Replays timed (after timed s (with_snapshot es count r)).state rest }
{}
