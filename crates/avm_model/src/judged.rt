/// What an audit says of a segment and authenticators, which are numbered from 0 in their file.
#[derive(Clone, Copy, Debug, PartialEq, Eq)]
pub enum Verdict {
    /// The segment or the authenticators are outside their grammar or limit.
    Malformed,
    /// The first authenticator that doesn't verify.
    BadAuth(u32),
    /// The first pair of authenticators of one number and two hashes.
    Double(u32, u32),
    /// The first entry's root or count isn't the snapshot's.
    Uncommitted,
    /// The first authenticator that conflicts with the cover, and the cover.
    Fork(u32, u32),
    /// The number of the first entry that doesn't replay, and the cover reaches it.
    Replay(u64),
    /// The number of the first entry that doesn't replay, and no cover reaches it.
    Uncovered(u64),
    /// The first authenticator outside the segment or unequal to the chain.
    Unmatched(u32),
    /// Accepted: the first number, the last, and the cover's, or 0 without a cover.
    Accepted { first: u64, last: u64, cover: u64 },
}

/// How an authenticator's hash is to the chain's at its number.
#[derive(Clone, Copy)]
pub enum Mark {
    Outside,
    Same,
    Other,
}

/// An authenticator's number, and how its hash is to the chain's there.
#[derive(Clone, Copy)]
pub struct Marked {
    pub seq: u64,
    pub mark: Mark,
}
