ghost use Rattle.std.specs.Prelude.{◌≡◌, ◌≤◌, ◌<◌, ◌+◌, ◌*◌, ◌^◌, ℕ, List};
ghost use Rattle.avm_model.specs.LmsTypes.{height_of};
ghost use Rattle.avm_model.specs.LmsOts.{ots_public};
ghost use Rattle.avm_model.specs.LmsTree.{node, inner, leaf, path, climb};

/// The equations of a tree (RFC 8554, sections 5.3 and 5.4): its leaves, its inner nodes, and that a path leads from its leaf to
/// the root.
pub fn node_equations()
    ensures leaves { (lms ots q : ℕ) (id seed : List ℕ) → node lms ots id seed (2 ^ height_of lms + q) ≡ leaf id (2 ^ height_of lms + q) (ots_public ots id q seed) }
    ensures inner { (lms ots r : ℕ) (id seed : List ℕ) → 1 ≤ r → r < 2 ^ height_of lms → node lms ots id seed r ≡ inner id r (node lms ots id seed (2 * r)) (node lms ots id seed (2 * r + 1)) }
    ensures climbs { (lms ots q : ℕ) (id seed : List ℕ) → q < 2 ^ height_of lms → climb id (height_of lms) (2 ^ height_of lms + q) (node lms ots id seed (2 ^ height_of lms + q)) (path (node lms ots id seed) (height_of lms) (2 ^ height_of lms + q)) ≡ node lms ots id seed 1 }
{}
