//! What the definitions say, as the contracts of functions that do nothing.

ghost use Rattle.std.specs.Prelude.{◌≡◌, ◌∷◌, [], ℕ, Some, codes, slice_get};
ghost use Rattle.world_model.specs.Lines.{first_line, lines_of};
ghost use Rattle.world_model.specs.World.{World, Node, IsStep, AreSteps, IsConsistent, AreAgreed};

/// What nodes have received was sent, and what they count as acknowledged was received: each event keeps it, and so does
/// every list of them.
pub fn agreement_stands()
    ensures step { (w v : World) → IsConsistent w → IsStep w v → IsConsistent v }
    ensures steps { (w v : World) → IsConsistent w → AreSteps w v → IsConsistent v }
{}

/// Then each node has a front of what each other has sent to it, and each message that it counts as acknowledged has been
/// received.
pub fn nodes_agree()
    ensures agreed { (w : World) (i j : ℕ) (a b : Node) → IsConsistent w → slice_get w.nodes i ≡ Some a → slice_get w.nodes j ≡ Some b → AreAgreed a b }
{}

/// After four events with three packets the first line is `events 4 packets 3`. Two nodes without rows have two lines more.
pub fn worked_lines()
    ensures first { first_line 4 3 ≡ codes "events 4 packets 3" }
    ensures pairs { lines_of 1 0 ([] ∷ [] ∷ []) ≡ codes "events 1 packets 0" ∷ codes "0 from 1 received 0 of 0" ∷ codes "1 from 0 received 0 of 0" ∷ [] }
{}
