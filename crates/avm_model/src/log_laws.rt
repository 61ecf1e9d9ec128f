//! What the definitions of heads, segments and chains say, as the contracts of functions that do nothing.

ghost use Rattle.std.specs.Prelude.{◌≡◌, ◌≤◌, ◌<◌, ◌+◌, ◌-◌, ◌∷◌, ℕ, List, None, Some, true, length, slice_get};
ghost use Rattle.avm_num.specs.Bytes.{IsBytes};
ghost use Rattle.avm_model.specs.declared.judged.Marked.{Marked};
ghost use Rattle.avm_model.specs.Bounds.{is_head};
ghost use Rattle.avm_model.specs.Chain.{chain_of, top_of};
ghost use Rattle.avm_model.specs.Cover.{IsCover, NoneMatches};
ghost use Rattle.avm_model.specs.Entries.{numbered};
ghost use Rattle.avm_model.specs.Frame.{FrameData};
ghost use Rattle.avm_model.specs.Head.{HeadData, FitsHead, head_bytes};
ghost use Rattle.avm_model.specs.HeadReading.{head_of};
ghost use Rattle.avm_model.specs.Marks.{cover, hash_in};
ghost use Rattle.avm_model.specs.Segment.{SegmentData, whole_segment_of};
ghost use Rattle.avm_model.specs.SegmentPages.{HasPages};
ghost use Rattle.avm_model.specs.Sizes.{bell_size, head_size};

/// The cover is the first of the greatest number among those that equal the chain; there is none where none equals it.
pub fn cover_is_greatest()
    ensures some { (ms : List Marked) (j n : ℕ) → cover ms ≡ Some (j, n) → IsCover ms j n }
    ensures none { (ms : List Marked) → cover ms ≡ None → NoneMatches ms }
{}

/// The chain is one hash for each entry. The hash at a number is the one at its place, and the top is the last.
pub fn hashes_are_the_chain()
    ensures at { (start n : ℕ) (h : List ℕ) (fs : List FrameData) → numbered start fs ≡ true → start ≤ n → hash_in n h fs ≡ slice_get (chain_of h fs) (n - start) }
    ensures before { (start n : ℕ) (h : List ℕ) (fs : List FrameData) → numbered start fs ≡ true → n < start → hash_in n h fs ≡ None }
    ensures top { (h : List ℕ) (f : FrameData) (fs : List FrameData) → slice_get (chain_of h (f ∷ fs)) (length fs) ≡ Some (top_of h (f ∷ fs)) }
{}

/// A head of either version has one spelling: bytes are read as a head exactly where they spell one that fits its fields and is
/// within the bounds.
pub fn heads_are_spelled_once()
    ensures read { (bytes : List ℕ) (h : HeadData) → IsBytes bytes → head_of bytes ≡ Some h → (bytes ≡ head_bytes h) × FitsHead h × (is_head h ≡ true) }
    ensures again { (h : HeadData) → FitsHead h → is_head h ≡ true → head_of (head_bytes h) ≡ Some h }
{}

/// How many bytes a head has, and that these are at most 11,774, and nine more in version 2.
pub fn heads_are_short()
    ensures size { (h : HeadData) → FitsHead h → length (head_bytes h) ≡ head_size h }
    ensures most { (h : HeadData) → is_head h ≡ true → head_size h ≤ 11774 + bell_size h.bell }
{}

/// The pages of a segment are as many as its head says.
pub fn segments_have_their_pages()
    ensures { (bytes : List ℕ) (s : SegmentData) (h : HeadData) → whole_segment_of bytes ≡ Some (s, h) → HasPages s h }
{}
