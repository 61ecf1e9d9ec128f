//! What the owner of a journal answers to evidence, as definitions; and that there always is an answer.
#![tactic(auto)]

ghost use Rattle.std.specs.Prelude.{◌≡◌, ℕ, IsSome, Some, false, slice_get};
ghost use Rattle.avm_model.specs.Auth.{AuthData};
ghost use Rattle.avm_model.specs.Evidence.{EvidData};
ghost use Rattle.avm_model.specs.Machine.{State};
ghost use Rattle.journal_model.specs.Journal.{JournalData};
ghost use Rattle.rebut_model.specs.Bound.{is_bound};
ghost use Rattle.rebut_model.specs.Rebuts.{Answer, forged, Given, OfHeads, Collides, rebuts, auths_of};

/// Against evidence that holds, the owner of a journal that covers it and replays always has an answer: an authenticator that
/// the journal has never signed, or two texts that differ and have one SHA-256 value.
#[tactic(auto, using(crate::proofs::Always::always, crate::proofs::Always::never_bound, crate::proofs::Always::collides))]
pub fn always_answered()
    ensures some { (s : State) (j : JournalData) (e : EvidData) → Given s j e → OfHeads s j e → IsSome (rebuts s j e) }
    ensures forged { (s : State) (j : JournalData) (e : EvidData) (k : ℕ) → rebuts s j e ≡ Some (forged k) → (a : AuthData) × (slice_get (auths_of e) k ≡ Some a) × (is_bound j a ≡ false) }
    ensures collides { (s : State) (j : JournalData) (e : EvidData) (a : Answer) → rebuts s j e ≡ Some a → Collides a }
{}
