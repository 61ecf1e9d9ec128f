//! A batch's bytes, written down by hand from docs/FORMATS.md, "Journal".

use crate::Batch;
use log_entry::Content;
use std::rt::HostRuntime;

/// A line at count 7 as entry 2, and a seal behind it.
const LINE_AND_SEAL: [u8; 24] = [
    1, 0, 0, 0, 0, 0, 0, 0, 2, 7, 0, 0, 0, 9, 0, 0, 0, 0, 0, 0, 0, 7, 65, 2,
];

#[test]
#[tactic(auto, unfolding(crate::specs::Batch::batch_size))]
fn a_line_and_a_seal(rt: HostRuntime) {
    let Ok(mut batch) = Batch::new(rt.alloc(), 2) else {
        assert!(rt; false);
        return;
    };
    assert!(rt; batch.is_empty());
    batch.add(Content::Out {
        count: 7,
        bytes: b"A",
    });
    batch.add_seal();
    assert!(rt; !batch.is_large());
    assert_eq!(rt; batch.room().bytes(), LINE_AND_SEAL.as_slice());
}
