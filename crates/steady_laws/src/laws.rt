//! A pending clock value, as the contract of a function that does nothing.

ghost use Rattle.std.specs.Prelude.{◌≡◌, true, is_some};
ghost use Rattle.avm_model.specs.Machine.{State, asks};
ghost use Rattle.honest_model.specs.Keeps.{IsOpened};
ghost use Rattle.journal_model.specs.Journal.{JournalData};

/// Whatever a journal holds, a clock value that is pending in the machine that opening gives is one that the machine asks for.
pub fn opened_machines_ask()
    ensures { (j : JournalData) (s : State) → IsOpened j s → is_some s.devices.clock ≡ true → asks s ≡ true }
{}
