// How an audit or a check ends: its line and its status.
ghost use Rattle.std.specs.Prelude.{◌≡◌, Some};
ghost use Rattle.audit_command.specs.Ends.{status_of, text_of, option_text, status_of_verdict, text_of_verdict};

use avm_model::Verdict;
use std::fmt;

/// The option whose file is refused.
#[derive(Clone, Copy, Debug, PartialEq, Eq)]
pub enum FileOption {
    Segment,
    Image,
    Key,
    Auths,
    Evidence,
}

impl fmt::Display for FileOption {
    ghost output = { λ o. Some (option_text o) };

    fn fmt<W: fmt::Write>(&self, f: &mut fmt::Formatter<W>) -> fmt::Result {
        match self {
            FileOption::Segment => write!(f, "--segment"),
            FileOption::Image => write!(f, "--image"),
            FileOption::Key => write!(f, "--key"),
            FileOption::Auths => write!(f, "--auths"),
            FileOption::Evidence => write!(f, "--evidence"),
        }
    }
}

/// An end without a fault of the outside and with enough memory.
#[derive(Clone, Copy, Debug, PartialEq, Eq)]
pub enum End {
    /// An input file isn't there, or is outside its grammar or limit.
    RefusedFile(FileOption),
    /// The verdict on a segment.
    Judged(Verdict),
    /// The segment doesn't begin with the image's initial state.
    RefusedImage,
    /// The evidence is of the key, and holds.
    EvidenceStands,
    /// The bytes are no evidence of the key, or it doesn't hold.
    RefusedEvidence,
}

// 0 accepted; 1 a fault that evidence shows; 2 refused.
fn verdict_status(verdict: &Verdict) -> u8
    ensures { result ≡ status_of_verdict verdict.now }
{
    match verdict {
        Verdict::Accepted { .. } => 0,
        Verdict::Double(..) | Verdict::Fork(..) | Verdict::Replay(_) => 1,
        _ => 2,
    }
}

// A verdict as it is printed.
#[derive(Clone, Copy)]
struct Line<'a>(&'a Verdict);

impl<'a> fmt::Display for Line<'a> {
    ghost output = { λ l. Some (text_of_verdict l.0.now) };

    fn fmt<W: fmt::Write>(&self, f: &mut fmt::Formatter<W>) -> fmt::Result {
        match self.0 {
            Verdict::Malformed => write!(f, "refused malformed"),
            Verdict::BadAuth(k) => write!(f, "refused badauth {k}"),
            Verdict::Double(i, j) => write!(f, "fault double {i} {j}"),
            Verdict::Uncommitted => write!(f, "refused uncommitted"),
            Verdict::Fork(i, j) => write!(f, "fault fork {i} {j}"),
            Verdict::Replay(n) => write!(f, "fault replay {n}"),
            Verdict::Uncovered(n) => write!(f, "refused uncovered {n}"),
            Verdict::Unmatched(k) => write!(f, "refused unmatched {k}"),
            Verdict::Accepted { first, last, cover } => {
                write!(f, "accepted {first} to {last} covered {cover}")
            }
        }
    }
}

impl End {
    /// 0 done, accepted or stands; 1 fault found; 2 refused by content; 3 an input file refused.
    pub fn status(&self) -> u8
        ensures { result ≡ status_of self.now }
    {
        match self {
            End::EvidenceStands => 0,
            End::RefusedImage | End::RefusedEvidence => 2,
            End::RefusedFile(_) => 3,
            End::Judged(verdict) => verdict_status(verdict),
        }
    }
}

impl fmt::Display for End {
    ghost output = { λ e. Some (text_of e) };

    fn fmt<W: fmt::Write>(&self, f: &mut fmt::Formatter<W>) -> fmt::Result {
        match self {
            End::RefusedFile(option) => write!(f, "refused file {option}"),
            End::Judged(verdict) => write!(f, "{}", Line(verdict)),
            End::RefusedImage => write!(f, "refused image"),
            End::EvidenceStands => write!(f, "evidence stands"),
            End::RefusedEvidence => write!(f, "refused evidence"),
        }
    }
}
