//! An export and a later audit of it, as the contract of a function that does nothing.

ghost use Rattle.std.specs.Prelude.{◌≡◌, ◌≢◌, ℕ, List, Option, Some, None};
ghost use Rattle.audit_command.specs.Meaning.{AuditMeans};
ghost use Rattle.avm_script.specs.Job.{SignedData};
ghost use Rattle.command_parts.specs.FileMap.{FileMap};
ghost use Rattle.export_command.specs.Meaning.{ExportMeans};
ghost use Rattle.export_command.specs.Outcomes.{Asked};
ghost use Rattle.export_headline.specs.Signed.{AreSigned, IsHonestStore};

/// Where an export of a store whose journal is honest with true keeps ends with 0, each later audit of the file that it wrote ends with 0 too,
/// faults of the outside and want of memory apart: with a public key and a file of authenticators of the journal's signing items in
/// the exported range that verify under it, and without both.
pub fn exports_audit_well()
    ensures signed { (a : Asked) (was : List ℕ) (old new : FileMap) (told : Option (List ℕ)) (names : SignedData) (files left : FileMap) (before after : Option (List ℕ)) (result : ℕ) → IsHonestStore was → ExportMeans a (Some was) old new 0 → old a.segment ≡ Some told
        → files a.segment ≡ new a.segment → AreSigned a was names files → AuditMeans a.segment None (Some names) files left before after result → result ≢ 4 → result ≢ 5 → result ≡ 0 }
    ensures plain { (a : Asked) (was : List ℕ) (old new : FileMap) (told : Option (List ℕ)) (files left : FileMap) (before after : Option (List ℕ)) (result : ℕ) → IsHonestStore was → ExportMeans a (Some was) old new 0 → old a.segment ≡ Some told
        → files a.segment ≡ new a.segment → AuditMeans a.segment None None files left before after result → result ≢ 4 → result ≢ 5 → result ≡ 0 }
{}
