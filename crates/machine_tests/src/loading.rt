//! Files at each bound of the table of refusals, and what two segments leave in RAM.

use rv32_loader::{LoadFault, inspect, load};
use rv32_mem::Ram;

/// A place in the file, a number of bytes, and the number that is put there, the low byte first.
type Change = (usize, u32, u64);

const NO: Change = (0, 0, 0);

/// A file's length, three changes of the usual file, and what comes of it in one page: 0 and the entry, or the number of the
/// fault and of its header. The usual file has two program headers at 52 and 84, and 16 bytes from 116 on.
const FILES: [(usize, Change, Change, Change, (u32, u32)); 58] = [
    (132, NO, NO, NO, (0, 0x8000_0000)),
    (51, NO, NO, NO, (3, 0)),
    (52, NO, NO, NO, (6, 0)),
    (132, (4, 1, 2), NO, NO, (3, 0)),
    (132, (5, 1, 2), NO, NO, (3, 0)),
    (132, (6, 1, 0), NO, NO, (3, 0)),
    (132, (7, 1, 9), NO, NO, (0, 0x8000_0000)),
    (132, (16, 2, 3), NO, NO, (4, 0)),
    (132, (16, 2, 1), NO, NO, (4, 0)),
    (132, (18, 2, 62), NO, NO, (4, 0)),
    (132, (18, 2, 244), NO, NO, (4, 0)),
    (132, (36, 4, 1), NO, NO, (5, 0)),
    (132, (36, 4, 5), NO, NO, (5, 0)),
    (132, (36, 4, 4), NO, NO, (0, 0x8000_0000)),
    (132, (42, 2, 31), NO, NO, (6, 0)),
    (132, (42, 2, 33), NO, NO, (6, 0)),
    (132, (44, 2, 0), NO, NO, (6, 0)),
    (2100, (44, 2, 64), NO, NO, (0, 0x8000_0000)),
    (2099, (44, 2, 64), NO, NO, (6, 0)),
    (2132, (44, 2, 65), NO, NO, (6, 0)),
    (148, (44, 2, 3), NO, NO, (0, 0x8000_0000)),
    (147, (44, 2, 3), NO, NO, (6, 0)),
    (132, (28, 4, 69), NO, NO, (6, 0)),
    (132, (28, 4, 68), NO, NO, (0, 0x8000_0000)),
    (132, (28, 4, 0xffff_ffff), NO, NO, (6, 0)),
    (132, (72, 4, 15), NO, NO, (7, 0)),
    (132, (104, 4, 3), NO, NO, (7, 1)),
    (132, (72, 4, 15), (104, 4, 3), NO, (7, 0)),
    (132, (56, 4, 117), NO, NO, (7, 0)),
    (132, (56, 4, 0xffff_fff8), NO, NO, (7, 0)),
    (131, NO, NO, NO, (7, 0)),
    (132, (88, 4, 0xffff_ffff), (100, 4, 0), NO, (0, 0x8000_0000)),
    (
        132,
        (88, 4, 0xffff_fff0),
        (100, 4, 0),
        (104, 4, 0),
        (0, 0x8000_0000),
    ),
    (132, (84, 4, 6), (104, 4, 0), NO, (0, 0x8000_0000)),
    (132, (60, 4, 0x8000_0fe0), NO, NO, (0, 0x8000_0000)),
    (132, (60, 4, 0x8000_0fe1), NO, NO, (8, 0)),
    (132, (60, 4, 0x7fff_ffff), NO, NO, (8, 0)),
    (132, (60, 4, 0xffff_fff0), NO, NO, (8, 0)),
    (
        132,
        (92, 4, 0x1000),
        (100, 4, 0),
        (104, 4, 0),
        (0, 0x8000_0000),
    ),
    (132, (92, 4, 0x8000_1000), NO, NO, (8, 1)),
    (132, (72, 4, 0xffff_ffff), NO, NO, (8, 0)),
    (132, (24, 4, 0x8000_0002), NO, NO, (9, 0)),
    (132, (24, 4, 0x8000_1000), NO, NO, (9, 0)),
    (132, (24, 4, 0x7fff_fffc), NO, NO, (9, 0)),
    (132, (24, 4, 0x8000_0ffc), NO, NO, (0, 0x8000_0ffc)),
    (132, (4, 1, 2), (16, 2, 3), (36, 4, 1), (3, 0)),
    (132, (16, 2, 3), (36, 4, 1), (44, 2, 0), (4, 0)),
    (132, (36, 4, 1), (42, 2, 31), (72, 4, 15), (5, 0)),
    (132, (44, 2, 0), (72, 4, 15), (24, 4, 1), (6, 0)),
    (132, (72, 4, 15), (60, 4, 0), (24, 4, 1), (7, 0)),
    (132, (104, 4, 3), (60, 4, 0), (24, 4, 1), (7, 1)),
    (132, (60, 4, 0), (24, 4, 1), NO, (8, 0)),
    (132, (0, 1, 0x7e), NO, NO, (0, 0x8000_0000)),
    (4096, (0, 1, 0), NO, NO, (0, 0x8000_0000)),
    (4097, (0, 1, 0), NO, NO, (2, 0)),
    (0, NO, NO, NO, (1, 0)),
    (3, NO, NO, NO, (0, 0x8000_0000)),
    (4, NO, NO, NO, (3, 0)),
];

/// The usual file: two segments of its 16 bytes, the second with the first four of them over the first one.
const USUAL: [Change; 20] = [
    (0, 7, 0x0001_0101_464c_457f),
    (16, 2, 2),
    (18, 2, 243),
    (24, 4, 0x8000_0000),
    (28, 4, 52),
    (42, 2, 32),
    (44, 2, 2),
    (52, 4, 1),
    (56, 4, 116),
    (60, 4, 0x8000_0000),
    (68, 4, 16),
    (72, 4, 32),
    (84, 4, 1),
    (88, 4, 116),
    (92, 4, 0x8000_0008),
    (100, 4, 4),
    (104, 4, 8),
    (116, 8, 0x0807_0605_0403_0201),
    (124, 8, 0x100f_0e0d_0c0b_0a09),
    NO,
];

fn change(bytes: &mut [u8], (at, size, number): Change) {
    let mut rest = number;
    for i in 0..size as usize {
        if at < bytes.len() && i < bytes.len() - at {
            bytes[at + i] = (rest % 256) as u8;
        }
        rest /= 256;
    }
}

fn number(fault: LoadFault) -> (u32, u32) {
    match fault {
        LoadFault::Empty => (1, 0),
        LoadFault::TooLong => (2, 0),
        LoadFault::NotElf => (3, 0),
        LoadFault::NotRiscv32 => (4, 0),
        LoadFault::Compressed => (5, 0),
        LoadFault::Headers => (6, 0),
        LoadFault::Segment(i) => (7, i),
        LoadFault::Outside(i) => (8, i),
        LoadFault::Entry => (9, 0),
    }
}

#[test]
fn files(rt: HostRuntime) {
    for &(len, first, second, third, want) in &FILES {
        let Ok(mut file) = vec![in rt.alloc(); 0u8; len] else {
            panic!(rt; "memory");
        };
        for one in USUAL {
            change(file.as_mut_slice(), one);
        }
        for one in [first, second, third] {
            change(file.as_mut_slice(), one);
        }
        let Ok(mut ram) = Ram::new(rt.alloc(), 1) else {
            panic!(rt; "memory");
        };
        let seen = match inspect(file.as_slice()) {
            Ok(()) => 0,
            Err(fault) => number(fault).0,
        };
        let alone = if want.0 == 2 || want.0 >= 8 {
            0
        } else {
            want.0
        };
        assert_eq!(rt; seen, alone, "{len} {first:?} {second:?} {third:?}");
        match load(&mut ram, file.as_slice()) {
            Ok(entry) => assert_eq!(rt; (0, entry), want, "{len} {first:?} {second:?} {third:?}"),
            Err(fault) => {
                assert_eq!(rt; number(fault), want, "{len} {first:?} {second:?} {third:?}");
                assert!(rt; ram.bytes().iter().all(|b| *b == 0));
            }
        }
    }
}

#[test]
fn two_segments(rt: HostRuntime) {
    let Ok(mut file) = vec![in rt.alloc(); 0u8; 132] else {
        panic!(rt; "memory");
    };
    for one in USUAL {
        change(file.as_mut_slice(), one);
    }
    let Ok(mut ram) = Ram::new(rt.alloc(), 1) else {
        panic!(rt; "memory");
    };
    assert!(rt; load(&mut ram, file.as_slice()).is_ok());
    let want = [1, 2, 3, 4, 5, 6, 7, 8, 1, 2, 3, 4, 0, 0, 0, 0, 0, 0, 0, 0];
    for (i, byte) in want.iter().enumerate() {
        assert_eq!(rt; ram.bytes().get(i), Some(byte), "{i}");
    }
}
