//! Logs of guests without peers. The first are as the guests make them, the others have one thing changed.

use super::{Log, alone};
use test_guests::{ASKS, COUNTS, ECHO, READS};

#[test]
fn counts(rt: HostRuntime) {
    let logs: [(Log<'_>, u64); 15] = [
        (
            &[
                (7, b"\x00\x00\x00\x00\x00\x00\x04\x00H"),
                (
                    9,
                    b"\x00\x00\x00\x00\x00\x00\x04\x00\x00\x00\x00\x01\x00\x00\x00\x00",
                ),
                (
                    2,
                    b"\x00\x00\x00\x00\x00\x00\x04\x00\xd3q\xe5\xefk\x9bn\xe4\x8f\x96\xcfa\x89uKZb\xe6\xb7\xea\xaf\x5c\x90\x2ef\xe8\xe3YB\x89\xe5d",
                ),
            ],
            0,
        ),
        (
            &[
                (7, b"\x00\x00\x00\x00\x00\x00\x04\x00H"),
                (
                    9,
                    b"\x00\x00\x00\x00\x00\x00\x04\x00\x00\x00\x00\x01\x00\x00\x00\x00",
                ),
            ],
            0,
        ),
        (&[(7, b"\x00\x00\x00\x00\x00\x00\x04\x00H")], 0),
        (
            &[
                (7, b"\x00\x00\x00\x00\x00\x00\x04\x00H"),
                (
                    9,
                    b"\x00\x00\x00\x00\x00\x00\x04\x00\x00\x00\x00\x01\x00\x00\x00\x00",
                ),
                (
                    2,
                    b"\x00\x00\x00\x00\x00\x00\x04\x00\xd2q\xe5\xefk\x9bn\xe4\x8f\x96\xcfa\x89uKZb\xe6\xb7\xea\xaf\x5c\x90\x2ef\xe8\xe3YB\x89\xe5d",
                ),
            ],
            4,
        ),
        (
            &[
                (7, b"\x00\x00\x00\x00\x00\x00\x04\x00H"),
                (
                    2,
                    b"\x00\x00\x00\x00\x00\x00\x04\x00\xd3q\xe5\xefk\x9bn\xe4\x8f\x96\xcfa\x89uKZb\xe6\xb7\xea\xaf\x5c\x90\x2ef\xe8\xe3YB\x89\xe5d",
                ),
                (
                    9,
                    b"\x00\x00\x00\x00\x00\x00\x04\x00\x00\x00\x00\x01\x00\x00\x00\x00",
                ),
            ],
            3,
        ),
        (
            &[
                (
                    9,
                    b"\x00\x00\x00\x00\x00\x00\x04\x00\x00\x00\x00\x01\x00\x00\x00\x00",
                ),
                (7, b"\x00\x00\x00\x00\x00\x00\x04\x00H"),
                (
                    2,
                    b"\x00\x00\x00\x00\x00\x00\x04\x00\xd3q\xe5\xefk\x9bn\xe4\x8f\x96\xcfa\x89uKZb\xe6\xb7\xea\xaf\x5c\x90\x2ef\xe8\xe3YB\x89\xe5d",
                ),
            ],
            2,
        ),
        (
            &[
                (7, b"\x00\x00\x00\x00\x00\x00\x04\x00H"),
                (
                    2,
                    b"\x00\x00\x00\x00\x00\x00\x04\x00\xd3q\xe5\xefk\x9bn\xe4\x8f\x96\xcfa\x89uKZb\xe6\xb7\xea\xaf\x5c\x90\x2ef\xe8\xe3YB\x89\xe5d",
                ),
            ],
            3,
        ),
        (
            &[
                (7, b"\x00\x00\x00\x00\x00\x00\x04\x00H"),
                (
                    9,
                    b"\x00\x00\x00\x00\x00\x00\x04\x00\x00\x00\x00\x01\x00\x00\x00\x00",
                ),
                (
                    2,
                    b"\x00\x00\x00\x00\x00\x00\x03\xff\xd3q\xe5\xefk\x9bn\xe4\x8f\x96\xcfa\x89uKZb\xe6\xb7\xea\xaf\x5c\x90\x2ef\xe8\xe3YB\x89\xe5d",
                ),
            ],
            4,
        ),
        (
            &[
                (7, b"\x00\x00\x00\x00\x00\x00\x04\x00H"),
                (
                    9,
                    b"\x00\x00\x00\x00\x00\x00\x04\x00\x00\x00\x00\x01\x00\x00\x00\x00",
                ),
                (3, b"\x00\x00\x00\x00\x00\x00\x04\x00x"),
                (
                    2,
                    b"\x00\x00\x00\x00\x00\x00\x04\x00\xd3q\xe5\xefk\x9bn\xe4\x8f\x96\xcfa\x89uKZb\xe6\xb7\xea\xaf\x5c\x90\x2ef\xe8\xe3YB\x89\xe5d",
                ),
            ],
            4,
        ),
        (
            &[
                (7, b"\x00\x00\x00\x00\x00\x00\x04\x00H"),
                (
                    9,
                    b"\x00\x00\x00\x00\x00\x00\x04\x00\x00\x00\x00\x01\x00\x00\x00\x00",
                ),
                (
                    2,
                    b"\x00\x00\x00\x00\x00\x00\x04\x00\xd3q\xe5\xefk\x9bn\xe4\x8f\x96\xcfa\x89uKZb\xe6\xb7\xea\xaf\x5c\x90\x2ef\xe8\xe3YB\x89\xe5d",
                ),
                (
                    2,
                    b"\x00\x00\x00\x00\x00\x00\x04\x00\xd3q\xe5\xefk\x9bn\xe4\x8f\x96\xcfa\x89uKZb\xe6\xb7\xea\xaf\x5c\x90\x2ef\xe8\xe3YB\x89\xe5d",
                ),
            ],
            5,
        ),
        (
            &[
                (3, b"\x00\x00\x00\x00\x00\x00\x04\x00x"),
                (7, b"\x00\x00\x00\x00\x00\x00\x04\x00H"),
                (
                    9,
                    b"\x00\x00\x00\x00\x00\x00\x04\x00\x00\x00\x00\x01\x00\x00\x00\x00",
                ),
                (
                    2,
                    b"\x00\x00\x00\x00\x00\x00\x04\x00\xd3q\xe5\xefk\x9bn\xe4\x8f\x96\xcfa\x89uKZb\xe6\xb7\xea\xaf\x5c\x90\x2ef\xe8\xe3YB\x89\xe5d",
                ),
            ],
            2,
        ),
        (
            &[
                (3, b"\x00\x00\x00\x00\x00\x00\x03\xffx"),
                (7, b"\x00\x00\x00\x00\x00\x00\x04\x00H"),
                (
                    9,
                    b"\x00\x00\x00\x00\x00\x00\x04\x00\x00\x00\x00\x01\x00\x00\x00\x00",
                ),
            ],
            0,
        ),
        (
            &[
                (3, b"\x00\x00\x00\x00\x00\x00\x03\xffx"),
                (7, b"\x00\x00\x00\x00\x00\x00\x04\x00H"),
                (
                    9,
                    b"\x00\x00\x00\x00\x00\x00\x04\x00\x00\x00\x00\x01\x00\x00\x00\x00",
                ),
                (
                    2,
                    b"\x00\x00\x00\x00\x00\x00\x04\x00\xd3q\xe5\xefk\x9bn\xe4\x8f\x96\xcfa\x89uKZb\xe6\xb7\xea\xaf\x5c\x90\x2ef\xe8\xe3YB\x89\xe5d",
                ),
            ],
            5,
        ),
        (
            &[
                (7, b"\x00\x00\x00\x00\x00\x00\x04\x00H"),
                (
                    9,
                    b"\x00\x00\x00\x00\x00\x00\x04\x00\x00\x00\x00\x01\x00\x00\x00\x00",
                ),
                (
                    2,
                    b"\x00\x00\x00\x00\x00\x00\x04\x00\xd3q\xe5\xefk\x9bn\xe4\x8f\x96\xcfa\x89uKZb\xe6\xb7\xea\xaf\x5c\x90\x2ef\xe8\xe3YB\x89\xe5d",
                ),
                (3, b"\x00\x00\x00\x00\x00\x00\x04\x00x"),
            ],
            5,
        ),
        (&[(7, b"\x00\x00\x00\x00\x00\x00\x04\x00H\x0a")], 2),
    ];
    for &(log, fault) in &logs {
        assert_eq!(rt; alone(rt.alloc(), COUNTS, log), Some(fault));
    }
}

#[test]
fn asks(rt: HostRuntime) {
    let logs: [(Log<'_>, u64); 10] = [
        (
            &[
                (
                    4,
                    b"\x00\x00\x00\x00\x00\x00\x00\x01\x00\x00\x00\x00\x00\x00\x00\x07",
                ),
                (
                    9,
                    b"\x00\x00\x00\x00\x00\x00\x00\x03\x00\x00\x00\x01\x00\x00\x00\x00",
                ),
            ],
            0,
        ),
        (
            &[
                (
                    4,
                    b"\x00\x00\x00\x00\x00\x00\x00\x01\x00\x00\x00\x00\x00\x00\x00\x07",
                ),
                (
                    4,
                    b"\x00\x00\x00\x00\x00\x00\x00\x01\x00\x00\x00\x00\x00\x00\x00\x07",
                ),
                (
                    9,
                    b"\x00\x00\x00\x00\x00\x00\x00\x03\x00\x00\x00\x01\x00\x00\x00\x00",
                ),
            ],
            3,
        ),
        (
            &[(
                9,
                b"\x00\x00\x00\x00\x00\x00\x00\x03\x00\x00\x00\x01\x00\x00\x00\x00",
            )],
            2,
        ),
        (
            &[
                (
                    4,
                    b"\x00\x00\x00\x00\x00\x00\x00\x00\x00\x00\x00\x00\x00\x00\x00\x07",
                ),
                (
                    9,
                    b"\x00\x00\x00\x00\x00\x00\x00\x03\x00\x00\x00\x01\x00\x00\x00\x00",
                ),
            ],
            2,
        ),
        (
            &[
                (
                    4,
                    b"\x00\x00\x00\x00\x00\x00\x00\x02\x00\x00\x00\x00\x00\x00\x00\x07",
                ),
                (
                    9,
                    b"\x00\x00\x00\x00\x00\x00\x00\x03\x00\x00\x00\x01\x00\x00\x00\x00",
                ),
            ],
            2,
        ),
        (
            &[
                (
                    4,
                    b"\x00\x00\x00\x00\x00\x00\x00\x01\xff\xff\xff\xff\xff\xff\xff\xff",
                ),
                (
                    9,
                    b"\x00\x00\x00\x00\x00\x00\x00\x03\x00\x00\x00\x01\x00\x00\x00\x00",
                ),
            ],
            0,
        ),
        (
            &[
                (3, b"\x00\x00\x00\x00\x00\x00\x00\x01x"),
                (
                    4,
                    b"\x00\x00\x00\x00\x00\x00\x00\x01\x00\x00\x00\x00\x00\x00\x00\x07",
                ),
                (
                    9,
                    b"\x00\x00\x00\x00\x00\x00\x00\x03\x00\x00\x00\x01\x00\x00\x00\x00",
                ),
            ],
            0,
        ),
        (
            &[
                (
                    4,
                    b"\x00\x00\x00\x00\x00\x00\x00\x01\x00\x00\x00\x00\x00\x00\x00\x07",
                ),
                (3, b"\x00\x00\x00\x00\x00\x00\x00\x01x"),
                (
                    9,
                    b"\x00\x00\x00\x00\x00\x00\x00\x03\x00\x00\x00\x01\x00\x00\x00\x00",
                ),
            ],
            3,
        ),
        (
            &[
                (
                    4,
                    b"\x00\x00\x00\x00\x00\x00\x00\x01\x00\x00\x00\x00\x00\x00\x00\x07",
                ),
                (
                    9,
                    b"\x00\x00\x00\x00\x00\x00\x00\x03\x00\x00\x00\x01\x00\x00\x00\x00",
                ),
                (
                    4,
                    b"\x00\x00\x00\x00\x00\x00\x00\x03\x00\x00\x00\x00\x00\x00\x00\x01",
                ),
            ],
            4,
        ),
        (
            &[
                (
                    4,
                    b"\x00\x00\x00\x00\x00\x00\x00\x01\x00\x00\x00\x00\x00\x00\x00\x07",
                ),
                (3, b"\x00\x00\x00\x00\x00\x00\x00\x02x"),
                (
                    9,
                    b"\x00\x00\x00\x00\x00\x00\x00\x03\x00\x00\x00\x01\x00\x00\x00\x00",
                ),
            ],
            0,
        ),
    ];
    for &(log, fault) in &logs {
        assert_eq!(rt; alone(rt.alloc(), ASKS, log), Some(fault));
    }
}

#[test]
fn reads(rt: HostRuntime) {
    let logs: [(Log<'_>, u64); 4] = [
        (
            &[(
                9,
                b"\x00\x00\x00\x00\x00\x00\x00\x03\x00\x00\x00\x01\x00\x00\x00\x00",
            )],
            0,
        ),
        (
            &[
                (
                    4,
                    b"\x00\x00\x00\x00\x00\x00\x00\x01\x00\x00\x00\x00\x00\x00\x00\x07",
                ),
                (
                    9,
                    b"\x00\x00\x00\x00\x00\x00\x00\x03\x00\x00\x00\x01\x00\x00\x00\x00",
                ),
            ],
            2,
        ),
        (
            &[
                (3, b"\x00\x00\x00\x00\x00\x00\x00\x01x"),
                (
                    9,
                    b"\x00\x00\x00\x00\x00\x00\x00\x03\x00\x00\x00\x01\x00\x00\x00\x00",
                ),
            ],
            0,
        ),
        (
            &[
                (3, b"\x00\x00\x00\x00\x00\x00\x00\x02x"),
                (
                    9,
                    b"\x00\x00\x00\x00\x00\x00\x00\x03\x00\x00\x00\x01\x00\x00\x00\x00",
                ),
            ],
            0,
        ),
    ];
    for &(log, fault) in &logs {
        assert_eq!(rt; alone(rt.alloc(), READS, log), Some(fault));
    }
}

#[test]
fn echoes(rt: HostRuntime) {
    let logs: [(Log<'_>, u64); 13] = [
        (
            &[
                (3, b"\x00\x00\x00\x00\x00\x00\x00\x04H\x0a"),
                (7, b"\x00\x00\x00\x00\x00\x00\x00\x16H\x0a"),
            ],
            3,
        ),
        (
            &[
                (3, b"\x00\x00\x00\x00\x00\x00\x00\x00H\x0a"),
                (7, b"\x00\x00\x00\x00\x00\x00\x00\x10H\x0a"),
            ],
            0,
        ),
        (&[(3, b"\x00\x00\x00\x00\x00\x00\x00\x04\x04")], 0),
        (&[(3, b"\x00\x00\x00\x00\x00\x00\x00\x03H\x0a")], 0),
        (&[(3, b"\x00\x00\x00\x00\x00\x00\x00\x05H\x0a")], 2),
        (
            &[
                (3, b"\x00\x00\x00\x00\x00\x00\x00\x04H\x0a"),
                (7, b"\x00\x00\x00\x00\x00\x00\x00\x10H\x0a"),
            ],
            0,
        ),
        (
            &[
                (3, b"\x00\x00\x00\x00\x00\x00\x00\x04H\x0a"),
                (7, b"\x00\x00\x00\x00\x00\x00\x00\x11H\x0a"),
            ],
            3,
        ),
        (
            &[
                (3, b"\x00\x00\x00\x00\x00\x00\x00\x00H\x0a"),
                (7, b"\x00\x00\x00\x00\x00\x00\x00\x10H\x0a"),
            ],
            0,
        ),
        (
            &[
                (3, b"\x00\x00\x00\x00\x00\x00\x00\x00H\x0a"),
                (7, b"\x00\x00\x00\x00\x00\x00\x00\x11H\x0a"),
            ],
            3,
        ),
        (
            &[
                (3, b"\x00\x00\x00\x00\x00\x00\x00\x04\x04"),
                (
                    9,
                    b"\x00\x00\x00\x00\x00\x00\x00\x09\x00\x00\x00\x01\x00\x00\x00\x00",
                ),
            ],
            0,
        ),
        (
            &[
                (3, b"\x00\x00\x00\x00\x00\x00\x00\x04\x04"),
                (
                    9,
                    b"\x00\x00\x00\x00\x00\x00\x00\x0a\x00\x00\x00\x01\x00\x00\x00\x00",
                ),
            ],
            3,
        ),
        (&[(3, b"\x00\x00\x00\x00\x00\x00\x00\x04H")], 0),
        (&[(3, b"\x00\x00\x00\x00\x00\x00\x00\x05H")], 2),
    ];
    for &(log, fault) in &logs {
        assert_eq!(rt; alone(rt.alloc(), ECHO, log), Some(fault));
    }
}
