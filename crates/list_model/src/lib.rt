//! The lines that `list` prints of a journal, as a definition; and some of them, computed.
#![tactic(auto)]

ghost use Rattle.std.specs.Prelude.{◌≡◌, ◌∷◌, [], codes, Some};
ghost use Rattle.avm_model.specs.Content.{conin, clock, send, halt};
ghost use Rattle.journal_model.specs.Part.{seal};
ghost use Rattle.list_model.specs.Lines.{content_line, mark_lines, part_lines};

/// A console input of the bytes 0a and ff at count 10 is `2 CONIN 10 0aff`; a clock value `3 CLOCK 7 0`; a SEND of an empty
/// message `28 SEND 9 1 1`; a HALT `2 HALT 4 8 16`; a seal behind entry 4 `seal 4`; the mark of entry 27 `retired 27`.
pub fn worked_lines()
    ensures console { content_line 2 (Some (conin 10 (10 ∷ 255 ∷ []))) ≡ codes "2 CONIN 10 0aff" }
    ensures clock { content_line 3 (Some (clock 7 0)) ≡ codes "3 CLOCK 7 0" }
    ensures empty { content_line 28 (Some (send 9 1 1 [])) ≡ codes "28 SEND 9 1 1" }
    ensures halt { content_line 2 (Some (halt 4 8 16)) ≡ codes "2 HALT 4 8 16" }
    ensures sealed { part_lines 4 (seal ∷ []) ≡ codes "seal 4" ∷ [] }
    ensures retired { mark_lines (Some 27) ≡ codes "retired 27" ∷ [] }
{}
