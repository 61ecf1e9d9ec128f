//! Changes of words. The lines are those of the definitions, read by hand, and of an independent program.

use super::building::alone;
use super::running::{Asked, CALL, HALT, views_as};

/// Stores 7 into the word behind it, twice, and halts.
const TWICE: [u32; 5] = [
    0x0000_0297,
    0x0070_0313,
    0x0062_aa23,
    0x0062_aa23,
    0x0000_0073,
];

/// Stores 7 into two bytes of the word behind it, and halts.
const BYTES: [u32; 5] = [
    0x0000_0297,
    0x0070_0313,
    0x0062_8a23,
    0x0062_8aa3,
    0x0000_0073,
];

#[test]
fn a_word(rt: HostRuntime) {
    let rows: [(&[u32], u32, &str, u8); 8] = [
        (&TWICE, 0x8000_0014, "3 00000000 00000007\n", 0),
        (&TWICE, 0x8000_0010, "", 0),
        (&TWICE, 0x8000_0ffc, "", 0),
        (&TWICE, 0x8000_1000, "refused range\n", 2),
        (&TWICE, 0x8000_0015, "refused range\n", 2),
        (&TWICE, 0x7fff_fffc, "refused range\n", 2),
        (&TWICE, 0xffff_ffff, "refused range\n", 2),
        (
            &BYTES,
            0x8000_0014,
            "3 00000000 00000007\n4 00000007 00000707\n",
            0,
        ),
    ];
    for (words, address, printed, status) in rows {
        let segment = alone(rt.alloc(), words, &[(HALT, 5, CALL)]).expect(&rt, "memory");
        assert!(rt;
            views_as(
                rt.alloc(),
                &segment,
                Asked::Changes(address),
                printed,
                status
            ),
            "{address} {printed}"
        );
    }
}
