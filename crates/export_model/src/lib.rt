//! What `export` makes of a journal, as a definition; and some of it, computed.
#![tactic(auto)]

ghost use Rattle.std.specs.Prelude.{◌≡◌, ◌∷◌, [], true, false};
ghost use Rattle.avm_model.specs.Frame.{FrameData};
ghost use Rattle.export_model.specs.Exports.{begins_at};
ghost use Rattle.honest_model.specs.Keeps.{up_to};

/// A segment may begin at a BOOT or a SNAP entry and at no other, and has the entries up to its last number.
pub fn worked_exports()
    ensures boot { begins_at 1 (record { seq = 1; kind = 1; content = [] } ∷ []) ≡ true }
    ensures snap { begins_at 4 (record { seq = 3; kind = 7; content = [] } ∷ record { seq = 4; kind = 2; content = [] } ∷ []) ≡ true }
    ensures input { begins_at 4 (record { seq = 3; kind = 2; content = [] } ∷ record { seq = 4; kind = 3; content = [] } ∷ []) ≡ false }
    ensures none { begins_at 5 (record { seq = 4; kind = 2; content = [] } ∷ []) ≡ false }
    ensures last { (f g h : FrameData) → f.seq ≡ 4 → g.seq ≡ 5 → h.seq ≡ 6 → up_to 5 (f ∷ g ∷ h ∷ []) ≡ f ∷ g ∷ [] }
{}
