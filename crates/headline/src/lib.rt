//! The headline, as a law over the clauses of three commands: `audit`, which finds a fault; `check`, by anybody; and `rebut`, by the owner
//! of a store.
#![tactic(auto)]

ghost use Rattle.std.specs.Prelude.{ℕ, List, Option, None, Some};
ghost use Rattle.audit_command.specs.Meaning.{AuditMeans};
ghost use Rattle.avm_script.specs.Job.{SignedData};
ghost use Rattle.command_parts.specs.FileMap.{FileMap};
ghost use Rattle.headline.specs.Headline.{HeadlineMeans, IsShownToAll};

/// An audit ends with 0 exactly where the segment chains from its snapshot, every authenticator verifies and matches, and the reference
/// machine, fed the logged inputs at their counts, gives exactly the logged outputs. Where it ends with 1, the file under `--evidence`
/// holds evidence of the key, which `check` accepts; and against it the owner of a store of that key whose journal covers it and replays
/// gets from `rebut` an authenticator whose pair the journal never bound, or two texts that differ and have one SHA-256 value. Faults
/// of the outside and want of memory are apart.
#[tactic(auto, using(crate::proofs::Joined::joined, crate::proofs::Joined::faults))]
pub fn headline()
    ensures whole { (segment : List ℕ) (signed : Option SignedData) (old new : FileMap) (before after : Option (List ℕ)) (result : ℕ) → AuditMeans segment None signed old new before after result → HeadlineMeans segment signed old new result }
    // and so with an image
    ensures faults { (segment : List ℕ) (image : Option (List ℕ)) (names : SignedData) (old new : FileMap) (before after : Option (List ℕ)) → AuditMeans segment image (Some names) old new before after 1 → IsShownToAll names old new }
{}
