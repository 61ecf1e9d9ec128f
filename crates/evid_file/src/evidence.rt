use avm_auth::Auth;
use avm_model::Digest;

/// What shows a fault to others, with the public key that it is judged by.
#[derive(Clone, Copy)]
pub enum Evidence<'a> {
    /// Two authenticators of one number and two hashes.
    Double {
        key: [u8; 56],
        a: Auth<'a>,
        b: Auth<'a>,
    },
    /// The frames from a number on, the chain's hash before them, an authenticator of the last of them, and one of
    /// another hash for one of their numbers.
    Fork {
        key: [u8; 56],
        start: u64,
        before: Digest,
        frames: &'a [u8],
        top: Auth<'a>,
        other: Auth<'a>,
    },
    /// A segment that doesn't replay, and an authenticator of its last entry.
    Replay {
        key: [u8; 56],
        segment: &'a [u8],
        top: Auth<'a>,
    },
}
