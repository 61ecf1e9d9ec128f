// What the definitions say of files, as the contracts of functions that do nothing.
ghost use Rattle.std.specs.Prelude.{◌≡◌, ◌≤◌, ℕ, true, List, [], length, Some};
ghost use Rattle.avm_num.specs.Bytes.{IsBytes};
ghost use Rattle.avm_model.specs.Auth.{AuthData};
ghost use Rattle.avm_model.specs.Keys.{public_file};
ghost use Rattle.hss_model.specs.HssFile.{EndorsementData, AreValid, Narrows, narrow_of, endorsement_of, endorsement_bytes};
ghost use Rattle.hss_files.specs.Answers.{under};

/// What is narrowed are authenticators that verify under the bottom key, which is a public key.
pub fn narrowed_are_valid()
    ensures valid { (top bytes bottom : List ℕ) (auths : List AuthData) → IsBytes bytes → narrow_of top bytes ≡ Narrows bottom auths → AreValid (under bottom) auths }
    ensures key { (top bytes bottom : List ℕ) (auths : List AuthData) → narrow_of top bytes ≡ Narrows bottom auths → public_file bottom ≡ true }
{}

/// An endorsement is read as it is written.
pub fn endorsements_are_read()
    ensures { (e : EndorsementData) → length e.upper ≤ 9324 → length e.bottom ≡ 56 → endorsement_of (endorsement_bytes e) ≡ Some e }
{}
