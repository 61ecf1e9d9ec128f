//! The definitions of HSS with two levels (RFC 8554, section 6), of rolls and of authenticators under two keys, and the laws
//! about them, as contracts of functions that do nothing.
#![tactic(auto)]

ghost use Rattle.std.specs.Prelude.{◌≡◌, ◌≤◌, ◌^◌, ◌++◌, ℕ, true, List, ◌∷◌, length};
ghost use Rattle.avm_model.specs.Auth.{AuthData};
ghost use Rattle.avm_model.specs.LmsValid.{valid};
ghost use Rattle.hss_model.specs.History.{Event, Granted, Lives, IsAmong};
ghost use Rattle.hss_model.specs.Hss.{signature_length};
ghost use Rattle.hss_model.specs.HssFile.{EndorsementData, AreValid, widen_of, narrow_of, Narrows};
ghost use Rattle.hss_model.specs.Roll.{RollData};

/// Over a history of a roll, with crashes amid its calls, no key is lost or moved, and no leaf is granted to two keys.
pub fn a_leaf_binds_once()
    ensures kept { (es : List Event) (r s : RollData) → Lives es r s → (more : List (List ℕ)) × (s.bottoms ≡ r.bottoms ++ more) }
    ensures once { (es : List Event) (r s : RollData) (leaf : ℕ) (a b : List ℕ) → Lives es r s → IsAmong (Granted leaf a) es → IsAmong (Granted leaf b) es → a ≡ b }
{}

/// What is widened from one or more valid authenticators and an endorsement of their key is narrowed to them again.
pub fn widened_is_narrowed()
    ensures { (top : List ℕ) (e : EndorsementData) (a : AuthData) (auths : List AuthData) → length e.bottom ≡ 56 → length e.upper ≤ 9324 → length e.upper ≡ signature_length top → valid top e.bottom e.upper ≡ true → AreValid e (a ∷ auths)
        → length (widen_of e (a ∷ auths)) ≤ 2 ^ 25 → narrow_of top (widen_of e (a ∷ auths)) ≡ Narrows e.bottom (a ∷ auths) }
{}
