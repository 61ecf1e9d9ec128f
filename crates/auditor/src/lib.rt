//! The auditor: the verdict on a segment with authenticators, the evidence for it, and the check of evidence.
#![tactic(auto)]

mod auditing;
mod checking;
mod covering;
mod evidence;
mod holding;
mod replaying;
mod showing;

pub use audit_stream::AuditStream;
pub use auditing::audit;
pub use avm_model::Verdict;
pub use evidence::evidence_of;
pub use holding::check;
