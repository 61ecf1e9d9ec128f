//! What was released signs, as the contract of a function that does nothing.

ghost use Rattle.std.specs.Prelude.{◌≡◌, ◌≤◌, ◌<◌, ◌^◌, ℕ, List, Some};
ghost use Rattle.std.specs.List.{AllByRecursion};
ghost use Rattle.avm_model.specs.Audit.{IsAcceptedBytes, auths_within};
ghost use Rattle.avm_model.specs.Auth.{AuthData};
ghost use Rattle.avm_model.specs.Keys.{FitsKey, public_of};
ghost use Rattle.avm_model.specs.Machine.{State};
ghost use Rattle.acceptance_laws.specs.Signed.{IsSigned};
ghost use Rattle.export_model.specs.Exports.{IsExport, IsStateAt, exported};
ghost use Rattle.journal_spelling.specs.Spelled.{HasSpelling};
ghost use Rattle.rebut_model.specs.Texts.{OfHead};
ghost use Rattle.life_model.specs.Life.{IsKept, Life, Place, left_at};
ghost use Rattle.release_laws.specs.Formed.{IsReleased};

use avm_outside::Disk;

/// In a store's life, at whatever moment: an authenticator that was released for an entry from..to of the journal, or that is formed from a packet
/// released for it, verifies under the public key, and the journal bound its pair. So the segment from..to that is exported of the journal is
/// accepted with any of them, none too. The life is one that is kept; its signer has the journal's key and an id of four bytes.
pub fn released_segments_are_accepted<D: Disk, E: Disk>()
    ensures signed { (l : Life (Place D E)) (a : AuthData) (from to : ℕ) → IsKept (left_at D.may_leave E.may_leave) l → FitsKey l.who.key → l.who.own < 2 ^ 32 → l.recording.journal.header.key ≡ public_of l.who.key → HasSpelling l.recording.journal
        → l.recording.journal.header.first ≤ from → IsReleased l.released from to a → IsSigned (public_of l.who.key) l.recording.journal from to a }
    ensures accepted { (l : Life (Place D E)) (from to : ℕ) (bytes auths : List ℕ) (list : List AuthData) → IsKept (left_at D.may_leave E.may_leave) l → FitsKey l.who.key → l.who.own < 2 ^ 32 → l.recording.journal.header.key ≡ public_of l.who.key → HasSpelling l.recording.journal
        → IsExport l.recording.journal from to (exported bytes) → ((s : State) → IsStateAt l.recording.journal from s → OfHead s)
        → auths_within auths ≡ Some list → AllByRecursion (IsReleased l.released from to) list → IsAcceptedBytes (public_of l.who.key) bytes auths }
{}
