//! What opening a journal leaves of the machine, as a law.
#![tactic(auto)]

ghost use Rattle.std.specs.Prelude.{◌≤◌, ◌^◌, ℕ, length, None};
ghost use Rattle.avm_model.specs.Machine.{State};
ghost use Rattle.honest_model.specs.Keeps.{IsOpenFault, IsOpened};
ghost use Rattle.journal_model.specs.Fits.{FitsJournal};
ghost use Rattle.journal_model.specs.Journal.{JournalData, entries};
ghost use Rattle.record_ready.specs.Ready.{IsSteady};

/// In the machine that opening a journal gives, a clock value waits only where the machine asks for it, and then a step can follow:
/// an entry costs at most 2^24 steps, a journal has at most 2^30 entries, and one that begins behind an earlier one begins below
/// 2^61 steps.
pub fn opened_machines_are_steady()
    ensures { (j : JournalData) (s : State) → FitsJournal j → length (entries j) ≤ 2 ^ 30 → IsOpenFault j None → IsOpened j s → IsSteady s }
{}
