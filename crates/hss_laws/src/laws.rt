// Calls on a roll are the events of its history, and what is widened is narrowed to the same again.
ghost use Rattle.std.specs.Prelude.{◌≡◌, ◌≢◌, ◌≤◌, ◌^◌, ◌∷◌, ℕ, List, length, Some, Ok, false, IfSome};
ghost use Rattle.avm_model.specs.Auth.{AuthData, auth_bytes};
ghost use Rattle.avm_model.specs.LmsValid.{Valid};
ghost use Rattle.avm_num.specs.Lists.{list_bytes};
ghost use Rattle.avm_outside.specs.Moments.{LeavesOnly};
ghost use Rattle.command_parts.specs.FileMap.{FileMap};
ghost use Rattle.evid_file.specs.Pieces.{Written};
ghost use Rattle.hss_command.specs.Inputs.{IsTold, public_key_in};
ghost use Rattle.hss_command.specs.Narrow.{NarrowMeans};
ghost use Rattle.hss_model.specs.History.{Granted as GrantedLeaf, Cut, Happens};
ghost use Rattle.hss_model.specs.HssFile.{AreValid, EndorsementData, widen_of};
ghost use Rattle.hss_model.specs.Roll.{RollData, IsEither, roll_of};
ghost use Rattle.lms_hss.specs.Opening.{AttachAnswers};
ghost use Rattle.lms_hss.specs.Own.{RollState, IsOwn, EnrollAnswers};
ghost use Rattle.lms_hss.specs.declared.granted.Granted.{Granted};

use avm_outside::Disk;

/// An enroll that grants a leaf is that event of the roll's history, and the disk behind it is the new roll's own. Where a crash comes
/// at any moment of an enroll, the roll that is opened next is behind a cut of its key. So the roll that is opened is always the last
/// acknowledged one, or that one and the key in flight.
pub fn enrolls_are_events<D: Disk>()
    ensures granted { (disk : D) (now bottom : List ℕ) (r : RollData) (old new : RollState) (g : Granted) → EnrollAnswers old new (D.may_leave disk) now r bottom (Ok g) → (s : RollData) × Happens (GrantedLeaf g.leaf bottom) r s × IsOwn new (D.may_leave disk) now s }
    ensures cut { (before behind : D) (c bottom : List ℕ) (r s : RollData) → LeavesOnly D.moment D.left_since before behind (IsEither r bottom) → D.left_since behind (D.moment before) c → roll_of c ≡ Some s → Happens (Cut bottom) r s }
    ensures opened { (disk : D) (c : List ℕ) (v : RollState) → AttachAnswers (λ x. x) (D.may_leave disk) c (Ok v) → (s : RollData) × (roll_of c ≡ Some s) × IsOwn v (D.may_leave disk) c s }
{}

/// Where a file holds what is widened from one or more valid authenticators and an endorsement of their key, narrowing it ends with 0,
/// but for a fault of the outside and want of memory, and writes that key and these authenticators.
pub fn widened_files_are_narrowed()
    ensures { (key wide public into : List ℕ) (old new : FileMap) (result : ℕ) (top : List ℕ) (e : EndorsementData) (a : AuthData) (auths : List AuthData) → NarrowMeans key wide public into old new result → IsTold public_key_in (old key) top
        → old wide ≡ Some (Some (widen_of e (a ∷ auths))) → Valid top e.bottom e.upper → AreValid e (a ∷ auths) → length (widen_of e (a ∷ auths)) ≤ 2 ^ 25 → result ≢ 4 → result ≢ 5
        → (result ≡ 0) × Written e.bottom (old public) (new public) × Written (list_bytes auth_bytes (a ∷ auths)) (old into) (new into) }
{}
