//! How a sample's run is judged, and the lines that it prints, as definitions (`specs/`); and some of it, computed.
#![tactic(auto)]

ghost use Rattle.std.specs.Fmt.{decimal};
ghost use Rattle.std.specs.Prelude.{◌≡◌, ◌∷◌, ◌++◌, [], ℕ, List, codes, false, true};
ghost use Rattle.avm_model.specs.Auth.{signed_text_of};
ghost use Rattle.avm_model.specs.Frame.{FrameData};
ghost use Rattle.avm_model.specs.Keys.{KeyData, sig_of};
ghost use Rattle.avm_model.specs.Segment.{SegmentData};
ghost use Rattle.avm_model.specs.declared.judged.Verdict.TheVariants.{Accepted, Replay};
ghost use Rattle.rebut_command.specs.Judging.{answered};
ghost use Rattle.rebut_model.specs.Rebuts.{forged};
ghost use Rattle.sample_lines.specs.Judging.{Ending, JudgedTo, Subject, cheat_auth, cheat_hash, cheat_line, ended, first_lines, first_snap, has_out, is_full, raised, rebut_line, segment_line, with_raised};

/// The cheat raises the first OUT alone, and is signed at the last leaf of the key; the first SNAP parts the segments.
pub fn worked_cheats()
    ensures snap { first_snap (record { seq = 3; kind = 7; content = [] } ∷ record { seq = 4; kind = 2; content = [] } ∷ record { seq = 5; kind = 2; content = [] } ∷ []) ≡ 4 }
    ensures some_out { has_out (record { seq = 3; kind = 2; content = [] } ∷ record { seq = 4; kind = 7; content = [] } ∷ []) ≡ true }
    ensures no_out { has_out (record { seq = 3; kind = 2; content = [] } ∷ record { seq = 4; kind = 8; content = [] } ∷ []) ≡ false }
    ensures first { (f g : FrameData) → f.kind ≡ 7 → g.kind ≡ 7 → with_raised (f ∷ g ∷ []) ≡ raised f ∷ g ∷ [] }
    ensures leaf { (k : KeyData) (s : SegmentData) → (cheat_auth k s).sig ≡ sig_of k 1023 (signed_text_of (cheat_auth k s).seq (cheat_hash s)) }
{}

/// The lines of a segment that is accepted, of a fault, and of an authenticator that was never signed; and where the numbers are
/// others, the first two lines are the last.
pub fn worked_lines()
    ensures accepted { (first last cover : ℕ) → segment_line 1 (Accepted first last cover) ≡ codes "segment " ++ (decimal 1 ++ codes " accepted") }
    ensures fault { (n : ℕ) → cheat_line (Replay n) ≡ codes "cheat fault replay " ++ decimal n }
    ensures forged { (k : ℕ) → rebut_line (answered (forged k)) ≡ codes "rebut forged " ++ decimal k }
    ensures others { (x : Subject) (e : Ending) → is_full x ≡ false → JudgedTo x e → e ≡ ended 2 (first_lines x) }
{}
