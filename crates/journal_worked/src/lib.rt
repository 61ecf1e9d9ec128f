//! Worked examples of the definitions of journals, of recording and of rebuttals, which the checker computes.
#![tactic(auto)]

ghost use Rattle.std.specs.Prelude.{◌≡◌, ◌∷◌, ◌++◌, ℕ, List, [], true, Some, None};
ghost use Rattle.std.specs.Option.{option_map};
ghost use Rattle.avm_model.specs.Chain.{link, next_hash};
ghost use Rattle.avm_model.specs.Frame.{FrameData};
ghost use Rattle.avm_model.specs.Hash.{hash_of};
ghost use Rattle.avm_model.specs.Offer.{OfferConsole};
ghost use Rattle.rebut_model.specs.Rebuts.{forged, rebuts};
ghost use Rattle.rebut_model.specs.Texts.{collide, differ, entry_texts, first_of_all, texts};
ghost use Rattle.record_model.specs.Released.{Sender};
ghost use Rattle.record_model.specs.Recording.{StepOn, TakeIn, effect};
ghost use Rattle.record_model.specs.Recorded.{next_act};
ghost use Rattle.journal_worked.specs.Stores.{read_from, shape_of, Broken, Empty, Seen_as, boot_record, seal_record, out_record, opened, one_event, no_event, dropped_by, batch_of, made_store, made_fork, sealed_store, sealed_fork};

use avm_model::NotTaken;

/// Records behind their gates: an entry, a seal at leaf 0, and an entry. A closed gate in the middle ends the journal, whatever
/// stands behind it. Where the byte of the next gate is lacking, no record stands behind the last open gate.
#[tactic(auto, unfolding(journal_model::specs::Journal::journal_from))]
pub fn worked_journal()
    ensures three { shape_of (read_from (1 ∷ boot_record ++ 1 ∷ seal_record ++ 1 ∷ out_record ++ 0 ∷ [])) ≡ Seen_as (record { sizes = 1 ∷ 1 ∷ 1 ∷ []; next = 3; leaves = 0 ∷ [] }) }
    ensures closed { shape_of (read_from (1 ∷ boot_record ++ 0 ∷ seal_record ++ 1 ∷ out_record ++ 0 ∷ [])) ≡ Seen_as (record { sizes = 1 ∷ []; next = 2; leaves = [] }) }
    ensures cut { shape_of (read_from (1 ∷ boot_record ++ 1 ∷ seal_record)) ≡ Broken 359 }
    ensures first { shape_of (read_from (1 ∷ seal_record ++ 0 ∷ [])) ≡ Broken 300 }
    ensures nothing { shape_of (read_from (0 ∷ boot_record)) ≡ Empty }
{}

/// What a recorder does next: an event that is due is taken, before its count a step is made, and without events the run ends
/// at its count. Bytes that are no packet are dropped, and nothing is logged.
pub fn worked_recording()
    ensures due { next_act opened.machine (one_event 0) ≡ Some (record { act = TakeIn (Some (OfferConsole (65 ∷ []))); script = no_event 9 }) }
    ensures early { next_act opened.machine (one_event 3) ≡ Some (record { act = StepOn; script = one_event 3 }) }
    ensures over { next_act opened.machine (no_event 0) ≡ None }
    ensures dropped { (who : Sender) → option_map dropped_by (effect who [] opened (TakeIn None)) ≡ Some (Some NotTaken.NotPacket) }
    ensures unlogged { (who : Sender) → option_map batch_of (effect who [] opened (TakeIn None)) ≡ Some [] }
{}

/// What an owner answers to a fork. The texts stand from the last number of the evidence down, each number's link text before its
/// content. A pair that was never bound is forged, the first such: of a store without a signing item the first, and where a seal has
/// bound the first, the second. In such a list, behind equal texts, the first two that differ and have one hash are found.
pub fn worked_rebuttal()
    ensures order { (h g : List ℕ) (a b c d : FrameData) → entry_texts h (a ∷ b ∷ []) g (c ∷ d ∷ []) ≡ texts (link (next_hash h a) b) (link (next_hash g c) d) ∷ texts b.content d.content ∷ texts (link h a) (link g c) ∷ texts a.content c.content ∷ [] }
    ensures forged { rebuts opened.machine made_store made_fork ≡ Some (forged 0) }
    ensures second { rebuts opened.machine sealed_store sealed_fork ≡ Some (forged 1) }
    ensures collision { (same x y : List ℕ) → differ (texts x y) ≡ true → hash_of x ≡ hash_of y → first_of_all collide (texts same same ∷ texts x y ∷ []) ≡ Some (texts x y) }
{}
