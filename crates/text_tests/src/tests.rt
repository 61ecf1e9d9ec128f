//! Texts of made-up hashes: which of two differ, and where two page trees do.

use avm_hash::Digest;
use rebut_texts::{Unequal, page_walk, unequal};

#[test]
fn links_before_contents(rt: HostRuntime) {
    let link = [7; 73];
    let mut other = [7; 73];
    other[72] = 8;
    assert!(rt; matches!(unequal(&link, b"a", &link, b"a"), Unequal::No));
    assert!(rt; matches!(unequal(&link, b"a", &link, b"b"), Unequal::Content));
    assert!(rt; matches!(unequal(&link, b"a", &link, b"ab"), Unequal::Content));
    assert!(rt; matches!(unequal(&link, b"a", &other, b"a"), Unequal::Link));
    assert!(rt; matches!(unequal(&link, b"a", &other, b"b"), Unequal::Link));
}

#[test]
fn pages_of_equal_digests(rt: HostRuntime) {
    let nodes = [Digest([9; 32]); 4];
    let ours = [0; 8192];
    let mut last = [0; 8192];
    last[8191] = 1;
    let mut both = [0; 8192];
    both[4095] = 1;
    both[4096] = 1;
    assert_eq!(rt; page_walk(&nodes, &ours, &nodes, &ours), None);
    assert_eq!(rt; page_walk(&nodes, &ours, &nodes, &last), Some(3));
    assert_eq!(rt; page_walk(&nodes, &ours, &nodes, &both), Some(2));
}

#[test]
fn nodes_at_two_places(rt: HostRuntime) {
    let pages = [0; 16384];
    let ours = [Digest([9; 32]); 8];
    // Nodes 4 and 7 stand below places 2 and 3; node 3 below place 1.
    let mut lower = [Digest([9; 32]); 8];
    lower[4] = Digest([1; 32]);
    lower[7] = Digest([1; 32]);
    let mut right = [Digest([9; 32]); 8];
    right[7] = Digest([1; 32]);
    let mut upper = [Digest([9; 32]); 8];
    upper[3] = Digest([1; 32]);
    upper[4] = Digest([1; 32]);
    assert_eq!(rt; page_walk(&ours, &pages, &lower, &pages), Some(2));
    assert_eq!(rt; page_walk(&ours, &pages, &right, &pages), Some(3));
    assert_eq!(rt; page_walk(&ours, &pages, &upper, &pages), Some(1));
}
