//! Exported segments and their authenticators, as the contract of a function that does nothing.

ghost use Rattle.std.specs.Prelude.{◌≡◌, ℕ, List, Some};
ghost use Rattle.std.specs.List.{AllByRecursion};
ghost use Rattle.avm_model.specs.Audit.{IsAcceptedBytes, auths_within};
ghost use Rattle.avm_model.specs.Auth.{AuthData};
ghost use Rattle.avm_model.specs.Machine.{State};
ghost use Rattle.acceptance_laws.specs.Signed.{IsSigned};
ghost use Rattle.export_model.specs.Exports.{IsExport, IsStateAt, exported};
ghost use Rattle.honest_model.specs.Honest.{IsHonest};
ghost use Rattle.honest_model.specs.Keeps.{HasTrueKeeps};
ghost use Rattle.journal_model.specs.Journal.{JournalData};
ghost use Rattle.journal_spelling.specs.Spelled.{HasSpelling};
ghost use Rattle.rebut_model.specs.Texts.{OfHead};

/// The segment that is exported of an honest journal with true keeps is accepted with any authenticators of the journal's signing items
/// in its range, none too, that verify under the key. That the head and the pages tell the state at the first entry whole is what exporting
/// it ensures.
pub fn exports_are_accepted()
    ensures { (j : JournalData) (from to : ℕ) (key bytes auths : List ℕ) (list : List AuthData) → HasSpelling j → IsHonest j → HasTrueKeeps j → IsExport j from to (exported bytes) → ((s : State) → IsStateAt j from s → OfHead s)
        → auths_within auths ≡ Some list → AllByRecursion (IsSigned key j from to) list → IsAcceptedBytes key bytes auths }
{}
