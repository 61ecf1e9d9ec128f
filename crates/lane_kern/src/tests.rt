//! FIPS 180-4's example in eight lanes, eight texts of each length and eight drawn pages beside `sha2`, and pages that differ in
//! their last byte alone.

ghost use Rattle.std.specs.Prelude.{◌≤◌};

use crate::{leaves_x8, same_page, sha256_x8, zero_page};
use sha2::{Digest as _, Sha256};

const ABC: [u8; 32] = [
    0xba, 0x78, 0x16, 0xbf, 0x8f, 0x01, 0xcf, 0xea, 0x41, 0x41, 0x40, 0xde, 0x5d, 0xae, 0x22, 0x23,
    0xb0, 0x03, 0x61, 0xa3, 0x96, 0x17, 0x7a, 0x9c, 0xb4, 0x10, 0xff, 0x61, 0xf2, 0x00, 0x15, 0xad,
];

fn single(text: &[u8; 55], len: usize) -> [u8; 32]
    requires { len ≤ 55 }
{
    Sha256::digest(&text[..len])
}

fn single_leaf(page: &[u8]) -> [u8; 32] {
    let mut hasher = Sha256::new();
    hasher.update(&[0]);
    hasher.update(page);
    hasher.finalize()
}

#[test]
fn eight_texts(rt: HostRuntime) {
    let mut texts = [[9u8; 55]; 8];
    for k in 0..8 {
        texts[k][..3].copy_from_slice(b"abc");
        texts[k][3..].fill(17 * k as u8 + 3);
    }
    let digests = sha256_x8(&texts, 3);
    for k in 0..8 {
        assert_eq!(rt; digests[k], ABC);
    }
    'lengths: for len in 0..56 {
        let digests = sha256_x8(&texts, len);
        for k in 0..8 {
            assert_eq!(rt; digests[k], single(&texts[k], len));
        }
    }
}

#[test]
fn eight_pages(rt: HostRuntime) {
    let mut pages = [0u8; 32768];
    let mut drawn = 1u32;
    for i in 0..32768 {
        drawn = drawn.wrapping_mul(1664525).wrapping_add(1013904223);
        pages[i] = (drawn >> 24) as u8;
    }
    let leaves = leaves_x8(&pages);
    for k in 0..8 {
        assert_eq!(rt; leaves[k], single_leaf(&pages[4096 * k..4096 * k + 4096]));
    }
}

#[test]
fn compared_pages(rt: HostRuntime) {
    let zeros = [0; 4096];
    let mut last = zeros;
    last[4095] = 1;
    assert!(rt; same_page(&zeros, &zeros) && same_page(&last, &last));
    assert!(rt; !same_page(&zeros, &last) && !same_page(&last, &zeros));
    assert!(rt; zero_page(&zeros) && !zero_page(&last));
}
