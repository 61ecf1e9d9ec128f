//! Segments, authenticators, and the verdict on them by an independent program.

use super::Row;
use avm_model::Verdict;

/// The number of the first entry, the machine's own id, the page's last byte, the entries and changes by their letters, the
/// authenticators by their names, and the verdict.
pub const ROWS: [Row; 59] = [
    // Each form that is none, also where a signature is bad.
    (1, 0, 0, b"", b"r1", Verdict::Malformed),
    (1, 0, 0, b"Boh-", b"!3", Verdict::Malformed),
    (1, 0, 0, b"Boh+", b"", Verdict::Malformed),
    (1, 0, 0, b"BB", b"", Verdict::Malformed),
    (1, 16, 0, b"Boh", b"r1", Verdict::Malformed),
    (1, 0, 0, b"Boh", b"r1+0", Verdict::Malformed),
    (1, 0, 0, b"Boh", b"!3+0", Verdict::Malformed),
    // The first bad signature, also where two hashes have one number.
    (1, 0, 0, b"Boh", b"r1!3", Verdict::BadAuth(1)),
    (1, 0, 0, b"Beh", b"r2w2!2!3", Verdict::BadAuth(2)),
    (1, 0, 0, b"Zoh", b"!3", Verdict::BadAuth(0)),
    (1, 0, 0, b"B", b"!3r1", Verdict::BadAuth(0)),
    // The first pair, also of a segment that isn't committed.
    (1, 0, 0, b"Boh", b"r2w2", Verdict::Double(0, 1)),
    (1, 0, 0, b"Zoh", b"r2w2", Verdict::Double(0, 1)),
    (1, 0, 0, b"Beh", b"w3r2w2o2", Verdict::Double(1, 2)),
    (4, 0, 0, b"Soh", b"f9r2w2g9", Verdict::Double(0, 3)),
    (1, 0, 0, b"Beh", b"f9w3R3g9", Verdict::Double(0, 3)),
    (1, 1, 0, b"Boh", b"f9r3R3o3", Verdict::Double(1, 3)),
    // Another root, id or page, also with a fork or a fault.
    (1, 0, 0, b"Zoh", b"", Verdict::Uncommitted),
    (1, 0, 0, b"Zoh", b"u3o2", Verdict::Uncommitted),
    (1, 1, 0, b"Boh", b"r3", Verdict::Uncommitted),
    (1, 0, 1, b"Beh", b"w3", Verdict::Uncommitted),
    (4, 0, 1, b"Soh", b"s6", Verdict::Uncommitted),
    (1, 0, 0, b"Ze", b"f9", Verdict::Uncommitted),
    // A fork under the first of two covers, below and above a fault.
    (1, 0, 0, b"Boh", b"r3o2", Verdict::Fork(1, 0)),
    (1, 0, 0, b"Boh", b"f9o1o2R3r3", Verdict::Fork(1, 3)),
    (1, 0, 0, b"Beh", b"w3o1", Verdict::Fork(1, 0)),
    (1, 0, 0, b"Beh", b"o1W3w3", Verdict::Fork(0, 1)),
    (1, 0, 0, b"Behh", b"w4o3", Verdict::Fork(1, 0)),
    (1, 0, 0, b"Behh", b"o3o1w4", Verdict::Fork(0, 2)),
    (4, 0, 0, b"Soh", b"o5s6", Verdict::Fork(0, 1)),
    (1, 0, 0, b"Bho", b"x3r2", Verdict::Fork(1, 0)),
    // A fault below and at the cover's number; a conflict above the cover is none.
    (1, 0, 0, b"Beh", b"w3", Verdict::Replay(2)),
    (1, 0, 0, b"Beh", b"w2", Verdict::Replay(2)),
    (1, 0, 0, b"Beh", b"w2W3w3f9", Verdict::Replay(2)),
    (1, 0, 0, b"Beh", b"w2o3", Verdict::Replay(2)),
    (1, 0, 0, b"Bho", b"r1x2", Verdict::Replay(2)),
    (4, 0, 0, b"Seh", b"t5o1", Verdict::Replay(5)),
    (1, 0, 0, b"Behh", b"r1w3w4", Verdict::Replay(2)),
    (1, 0, 0, b"Behh", b"w3w2r1", Verdict::Replay(2)),
    // A fault behind the cover's number, or without a cover.
    (1, 0, 0, b"Beh", b"", Verdict::Uncovered(2)),
    (1, 0, 0, b"Beh", b"r1", Verdict::Uncovered(2)),
    (1, 0, 0, b"Beh", b"f9r1", Verdict::Uncovered(2)),
    (1, 0, 0, b"Beh", b"r1o2", Verdict::Uncovered(2)),
    (4, 0, 0, b"Seh", b"s4", Verdict::Uncovered(5)),
    (1, 0, 0, b"Bho", b"r3", Verdict::Uncovered(2)),
    (1, 0, 0, b"Bohh", b"r3", Verdict::Uncovered(4)),
    // Outside of the segment, or another hash.
    (1, 0, 0, b"Boh", b"r1f9", Verdict::Unmatched(1)),
    (1, 0, 0, b"Boh", b"r2o3", Verdict::Unmatched(1)),
    (1, 0, 0, b"B", b"r3", Verdict::Unmatched(0)),
    (1, 0, 0, b"Bo", b"r1r2r3", Verdict::Unmatched(2)),
    (4, 0, 0, b"Soh", b"o1", Verdict::Unmatched(0)),
    (4, 0, 0, b"Soh", b"s6f9o1", Verdict::Unmatched(1)),
    // Accepted.
    (
        1,
        0,
        0,
        b"Boh",
        b"",
        Verdict::Accepted {
            first: 1,
            last: 3,
            cover: 0,
        },
    ),
    (
        1,
        0,
        0,
        b"Boh",
        b"r1r2r3",
        Verdict::Accepted {
            first: 1,
            last: 3,
            cover: 3,
        },
    ),
    (
        1,
        0,
        0,
        b"Boh",
        b"r2r1",
        Verdict::Accepted {
            first: 1,
            last: 3,
            cover: 2,
        },
    ),
    (
        1,
        0,
        0,
        b"Bo",
        b"r1",
        Verdict::Accepted {
            first: 1,
            last: 2,
            cover: 1,
        },
    ),
    (
        1,
        0,
        0,
        b"B",
        b"",
        Verdict::Accepted {
            first: 1,
            last: 1,
            cover: 0,
        },
    ),
    (
        4,
        0,
        0,
        b"Soh",
        b"s4",
        Verdict::Accepted {
            first: 4,
            last: 6,
            cover: 4,
        },
    ),
    (
        4,
        0,
        0,
        b"Soh",
        b"s6s4s6",
        Verdict::Accepted {
            first: 4,
            last: 6,
            cover: 6,
        },
    ),
];

/// The digest of all segments and authenticator files above, one after another.
pub const FILES: [u8; 32] = [
    0xde, 0xfe, 0x42, 0xf1, 0x6c, 0x32, 0x91, 0xf4, 0x33, 0x40, 0xa9, 0xb3, 0xc7, 0x3f, 0x3a, 0x19,
    0xbf, 0x43, 0xfc, 0xcb, 0xea, 0x8b, 0x38, 0xa2, 0x5f, 0x0c, 0x5e, 0xf7, 0xdb, 0xb5, 0xf8, 0x43,
];

/// The digest of the evidence for those that have some, one after another.
pub const EVIDENCE: [u8; 32] = [
    0x32, 0x25, 0x6b, 0xa8, 0x11, 0x28, 0x67, 0xf0, 0x2e, 0x39, 0xd6, 0xd5, 0xe5, 0x51, 0x59, 0x19,
    0xd2, 0x86, 0xd6, 0xd3, 0x83, 0xe6, 0x2d, 0xbb, 0xe5, 0x78, 0x8b, 0x6a, 0x4e, 0x74, 0x73, 0x96,
];
