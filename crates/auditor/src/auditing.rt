// The verdict on bytes.
ghost use Rattle.std.specs.Prelude.{◌≡◌, IfOk};
ghost use Rattle.avm_model.specs.Audit.{IsVerdict, IsAcceptance};

use audit_stream::AuditStream;
use avm_model::Verdict;
use avm_num::NoMemory;
use std::alloc::Global;

/// How many bytes a stream's front has, where more may come behind it.
const FRONT: usize = 16384;

/// The verdict on a segment with authenticators under a public key: the first row of the table that applies. It is
/// acceptance exactly where the segment chains from its snapshot, every authenticator verifies and matches, and the
/// reference machine fed the logged inputs at their counts gives exactly the logged outputs.
pub fn audit(
    alloc: Global,
    key: &[u8; 56],
    segment: &[u8],
    auths: &[u8],
) -> Result<Verdict, NoMemory>
    ensures value { IfOk result (λ v. IsVerdict key.now segment.now auths.now v) }
    ensures accepted { IfOk result (λ v. IsAcceptance key.now segment.now auths.now v) }
{
    let (front, rest) = segment.split_at(segment.len().min(FRONT));
    let mut stream = AuditStream::open(alloc, key, front, auths)?;
    stream.feed(rest);
    Ok(stream.finish())
}
