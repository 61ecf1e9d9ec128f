//! Where a journal's records stand, as the contract of a function that does nothing.

ghost use Rattle.std.specs.Prelude.{◌≡◌, ℕ, List, length};
ghost use Rattle.avm_num.specs.Bytes.{IsBytes};
ghost use Rattle.journal_model.specs.Journal.{Is, JournalData, journal_of};
ghost use Rattle.journal_model.specs.Spelling.{header_bytes};
ghost use Rattle.base_records.specs.Records.{Stand};

/// The records of a journal stand behind its header.
pub fn records_stand()
    ensures { (was : List ℕ) (j : JournalData) → IsBytes was → journal_of was ≡ Is j → Stand (length (header_bytes j.header)) was j.records }
{}
