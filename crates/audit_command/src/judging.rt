// How an audit or a check of bytes ends.
ghost use Rattle.std.specs.Prelude.{◌≡◌, ◌≢◌, IfOk};
ghost use Rattle.audit_command.specs.Audit.{end_by};
ghost use Rattle.audit_command.specs.Check.{StandsOrNot};

use crate::End;
use avm_model::Verdict;
use file_audit::{Audited, Fault};
use std::alloc::Global;

// The end of a verdict. The image counts only where the segment is accepted.
pub fn end_of(audited: &Audited) -> End
    ensures { result ≡ end_by audited.now.verdict audited.now.begins }
{
    match audited.verdict {
        Verdict::Accepted { .. } if !audited.begins => End::RefusedImage,
        verdict => End::Judged(verdict),
    }
}

// How a check of bytes ends.
pub fn judge_evidence(alloc: Global, key: &[u8; 56], bytes: &[u8]) -> Result<End, Fault>
    ensures ends { IfOk result (StandsOrNot key.now bytes.now) }
    ensures no_fault { result ≢ Err Fault.Files }
{
    let stands = auditor::check(alloc, key, bytes)?;
    if stands {
        Ok(End::EvidenceStands)
    } else {
        Ok(End::RefusedEvidence)
    }
}
