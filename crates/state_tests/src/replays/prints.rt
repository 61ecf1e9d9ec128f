//! Logs of a guest that prints a line. The first are as the guest makes them, the others have one thing changed.

use super::{Log, alone};
use test_guests::PRINTS;

#[test]
fn prints(rt: HostRuntime) {
    let logs: [(Log<'_>, u64); 33] = [
        (
            &[
                (7, b"\x00\x00\x00\x00\x00\x00\x00\x05H\x0a"),
                (
                    9,
                    b"\x00\x00\x00\x00\x00\x00\x00\x06\x00\x00\x00\x01\x00\x00\x00\x00",
                ),
            ],
            0,
        ),
        (&[], 0),
        (&[(7, b"\x00\x00\x00\x00\x00\x00\x00\x05H\x0a")], 0),
        (
            &[
                (7, b"\x00\x00\x00\x00\x00\x00\x00\x04H\x0a"),
                (
                    9,
                    b"\x00\x00\x00\x00\x00\x00\x00\x06\x00\x00\x00\x01\x00\x00\x00\x00",
                ),
            ],
            2,
        ),
        (
            &[
                (7, b"\x00\x00\x00\x00\x00\x00\x00\x06H\x0a"),
                (
                    9,
                    b"\x00\x00\x00\x00\x00\x00\x00\x06\x00\x00\x00\x01\x00\x00\x00\x00",
                ),
            ],
            2,
        ),
        (
            &[
                (7, b"\x00\x00\x00\x00\x00\x00\x00\x05H\x0a"),
                (
                    9,
                    b"\x00\x00\x00\x00\x00\x00\x00\x05\x00\x00\x00\x01\x00\x00\x00\x00",
                ),
            ],
            3,
        ),
        (
            &[
                (7, b"\x00\x00\x00\x00\x00\x00\x00\x05H\x0a"),
                (
                    9,
                    b"\x00\x00\x00\x00\x00\x00\x00\x07\x00\x00\x00\x01\x00\x00\x00\x00",
                ),
            ],
            3,
        ),
        (
            &[
                (7, b"\x00\x00\x00\x00\x00\x00\x00\x05H\x0a"),
                (
                    9,
                    b"\x00\x00\x00\x00\x00\x00\x00\x06\x00\x00\x00\x02\x00\x00\x00\x00",
                ),
            ],
            3,
        ),
        (
            &[
                (7, b"\x00\x00\x00\x00\x00\x00\x00\x05H\x0a"),
                (
                    9,
                    b"\x00\x00\x00\x00\x00\x00\x00\x06\x00\x00\x00\x01\x00\x00\x00\x01",
                ),
            ],
            3,
        ),
        (
            &[(
                9,
                b"\x00\x00\x00\x00\x00\x00\x00\x06\x00\x00\x00\x01\x00\x00\x00\x00",
            )],
            2,
        ),
        (
            &[
                (7, b"\x00\x00\x00\x00\x00\x00\x00\x05H\x0a"),
                (7, b"\x00\x00\x00\x00\x00\x00\x00\x05H\x0a"),
                (
                    9,
                    b"\x00\x00\x00\x00\x00\x00\x00\x06\x00\x00\x00\x01\x00\x00\x00\x00",
                ),
            ],
            3,
        ),
        (
            &[
                (7, b"\x00\x00\x00\x00\x00\x00\x00\x05H\x0a"),
                (
                    9,
                    b"\x00\x00\x00\x00\x00\x00\x00\x06\x00\x00\x00\x01\x00\x00\x00\x00",
                ),
                (
                    9,
                    b"\x00\x00\x00\x00\x00\x00\x00\x06\x00\x00\x00\x01\x00\x00\x00\x00",
                ),
            ],
            4,
        ),
        (
            &[
                (
                    9,
                    b"\x00\x00\x00\x00\x00\x00\x00\x06\x00\x00\x00\x01\x00\x00\x00\x00",
                ),
                (7, b"\x00\x00\x00\x00\x00\x00\x00\x05H\x0a"),
            ],
            2,
        ),
        (&[(7, b"\x00\x00\x00\x00\x00\x00\x00\x05H")], 2),
        (
            &[
                (7, b"\x00\x00\x00\x00\x00\x00\x00\x05I\x0a"),
                (
                    9,
                    b"\x00\x00\x00\x00\x00\x00\x00\x06\x00\x00\x00\x01\x00\x00\x00\x00",
                ),
            ],
            2,
        ),
        (&[(7, b"\x00\x00\x00\x00\x00\x00\x00\x05H\x0ax")], 2),
        (
            &[
                (3, b"\x00\x00\x00\x00\x00\x00\x00\x00x"),
                (7, b"\x00\x00\x00\x00\x00\x00\x00\x05H\x0a"),
                (
                    9,
                    b"\x00\x00\x00\x00\x00\x00\x00\x06\x00\x00\x00\x01\x00\x00\x00\x00",
                ),
            ],
            0,
        ),
        (
            &[
                (3, b"\x00\x00\x00\x00\x00\x00\x00\x00x"),
                (3, b"\x00\x00\x00\x00\x00\x00\x00\x00y"),
                (7, b"\x00\x00\x00\x00\x00\x00\x00\x05H\x0a"),
                (
                    9,
                    b"\x00\x00\x00\x00\x00\x00\x00\x06\x00\x00\x00\x01\x00\x00\x00\x00",
                ),
            ],
            0,
        ),
        (
            &[
                (3, b"\x00\x00\x00\x00\x00\x00\x00\x03x"),
                (7, b"\x00\x00\x00\x00\x00\x00\x00\x05H\x0a"),
                (
                    9,
                    b"\x00\x00\x00\x00\x00\x00\x00\x06\x00\x00\x00\x01\x00\x00\x00\x00",
                ),
            ],
            0,
        ),
        (
            &[
                (3, b"\x00\x00\x00\x00\x00\x00\x00\x05x"),
                (7, b"\x00\x00\x00\x00\x00\x00\x00\x05H\x0a"),
                (
                    9,
                    b"\x00\x00\x00\x00\x00\x00\x00\x06\x00\x00\x00\x01\x00\x00\x00\x00",
                ),
            ],
            2,
        ),
        (
            &[
                (7, b"\x00\x00\x00\x00\x00\x00\x00\x05H\x0a"),
                (3, b"\x00\x00\x00\x00\x00\x00\x00\x05x"),
                (
                    9,
                    b"\x00\x00\x00\x00\x00\x00\x00\x06\x00\x00\x00\x01\x00\x00\x00\x00",
                ),
            ],
            0,
        ),
        (
            &[
                (7, b"\x00\x00\x00\x00\x00\x00\x00\x05H\x0a"),
                (3, b"\x00\x00\x00\x00\x00\x00\x00\x04x"),
                (
                    9,
                    b"\x00\x00\x00\x00\x00\x00\x00\x06\x00\x00\x00\x01\x00\x00\x00\x00",
                ),
            ],
            3,
        ),
        (
            &[
                (3, b"\x00\x00\x00\x00\x00\x00\x00\x06x"),
                (7, b"\x00\x00\x00\x00\x00\x00\x00\x05H\x0a"),
                (
                    9,
                    b"\x00\x00\x00\x00\x00\x00\x00\x06\x00\x00\x00\x01\x00\x00\x00\x00",
                ),
            ],
            2,
        ),
        (
            &[
                (7, b"\x00\x00\x00\x00\x00\x00\x00\x05H\x0a"),
                (
                    9,
                    b"\x00\x00\x00\x00\x00\x00\x00\x06\x00\x00\x00\x01\x00\x00\x00\x00",
                ),
                (3, b"\x00\x00\x00\x00\x00\x00\x00\x06x"),
            ],
            4,
        ),
        (
            &[
                (7, b"\x00\x00\x00\x00\x00\x00\x00\x05H\x0a"),
                (
                    9,
                    b"\x00\x00\x00\x00\x00\x00\x00\x06\x00\x00\x00\x01\x00\x00\x00\x00",
                ),
                (3, b"\x00\x00\x00\x00\x00\x00\x00\x07x"),
            ],
            4,
        ),
        (
            &[
                (
                    4,
                    b"\x00\x00\x00\x00\x00\x00\x00\x00\x00\x00\x00\x00\x00\x00\x00\x01",
                ),
                (7, b"\x00\x00\x00\x00\x00\x00\x00\x05H\x0a"),
                (
                    9,
                    b"\x00\x00\x00\x00\x00\x00\x00\x06\x00\x00\x00\x01\x00\x00\x00\x00",
                ),
            ],
            2,
        ),
        (
            &[
                (7, b"\x00\x00\x00\x00\x00\x00\x00\x05H\x0a"),
                (
                    9,
                    b"\x00\x00\x00\x00\x00\x00\x00\x06\x00\x00\x00\x01\x00\x00\x00\x00",
                ),
                (
                    4,
                    b"\x00\x00\x00\x00\x00\x00\x00\x06\x00\x00\x00\x00\x00\x00\x00\x01",
                ),
            ],
            4,
        ),
        (
            &[
                (
                    1,
                    b"\x00\x00\x00\x00\x00\x00\x00\x00\x00\x00\x00\x00\x00\x00\x00\x00\x00\x00\x00\x00\x00\x00\x00\x00\x00\x00\x00\x00\x00\x00\x00\x00\x00\x00\x00\x00\x00\x00\x00\x00",
                ),
                (7, b"\x00\x00\x00\x00\x00\x00\x00\x05H\x0a"),
                (
                    9,
                    b"\x00\x00\x00\x00\x00\x00\x00\x06\x00\x00\x00\x01\x00\x00\x00\x00",
                ),
            ],
            2,
        ),
        (
            &[
                (7, b"\x00\x00\x00\x00\x00\x00\x00\x05H\x0a"),
                (
                    9,
                    b"\x00\x00\x00\x00\x00\x00\x00\x06\x00\x00\x00\x01\x00\x00\x00\x00",
                ),
                (
                    1,
                    b"\x00\x00\x00\x00\x00\x00\x00\x00\x00\x00\x00\x00\x00\x00\x00\x00\x00\x00\x00\x00\x00\x00\x00\x00\x00\x00\x00\x00\x00\x00\x00\x00\x00\x00\x00\x00\x00\x00\x00\x00",
                ),
            ],
            4,
        ),
        (
            &[
                (7, b"\x00\x00\x00\x00\x00\x00\x00\x05H\x0a"),
                (
                    9,
                    b"\x00\x00\x00\x00\x00\x00\x00\x06\x00\x00\x00\x01\x00\x00\x00\x00",
                ),
                (
                    2,
                    b"\x00\x00\x00\x00\x00\x00\x00\x06\xd3q\xe5\xefk\x9bn\xe4\x8f\x96\xcfa\x89uKZb\xe6\xb7\xea\xaf\x5c\x90\x2ef\xe8\xe3YB\x89\xe5d",
                ),
            ],
            4,
        ),
        (
            &[(
                8,
                b"\x00\x00\x00\x00\x00\x00\x00\x05\x00\x00\x00\x01\x00\x00\x00\x00\x00\x00\x00\x01",
            )],
            2,
        ),
        (
            &[
                (
                    3,
                    b"\x00\x00\x00\x00\x00\x00\x00\x00xxxxxxxxxxxxxxxxxxxxxxxxxxxxxxxxxxxxxxxxxxxxxxxxxxxxxxxxxxxxxxxxxxxxxxxxxxxxxxxxxxxxxxxxxxxxxxxxxxxxxxxxxxxxxxxxxxxxxxxxxxxxxxxxxxxxxxxxxxxxxxxxxxxxxxxxxxxxxxxxxxxxxxxxxxxxxxxxxxxxxxxxxxxxxxxxxxxxxxxxxxxxxxxxxxxxxxxxxxxxxxxxxxxxxxxxxxxxxxxxxxxxxxxxxxxxxxxx",
                ),
                (
                    3,
                    b"\x00\x00\x00\x00\x00\x00\x00\x00xxxxxxxxxxxxxxxxxxxxxxxxxxxxxxxxxxxxxxxxxxxxxxxxxxxxxxxxxxxxxxxxxxxxxxxxxxxxxxxxxxxxxxxxxxxxxxxxxxxxxxxxxxxxxxxxxxxxxxxxxxxxxxxxxxxxxxxxxxxxxxxxxxxxxxxxxxxxxxxxxxxxxxxxxxxxxxxxxxxxxxxxxxxxxxxxxxxxxxxxxxxxxxxxxxxxxxxxxxxxxxxxxxxxxxxxxxxxxxxxxxxxxxxxxxxxxxxx",
                ),
                (
                    3,
                    b"\x00\x00\x00\x00\x00\x00\x00\x00xxxxxxxxxxxxxxxxxxxxxxxxxxxxxxxxxxxxxxxxxxxxxxxxxxxxxxxxxxxxxxxxxxxxxxxxxxxxxxxxxxxxxxxxxxxxxxxxxxxxxxxxxxxxxxxxxxxxxxxxxxxxxxxxxxxxxxxxxxxxxxxxxxxxxxxxxxxxxxxxxxxxxxxxxxxxxxxxxxxxxxxxxxxxxxxxxxxxxxxxxxxxxxxxxxxxxxxxxxxxxxxxxxxxxxxxxxxxxxxxxxxxxxxxxxxxxxxx",
                ),
                (
                    3,
                    b"\x00\x00\x00\x00\x00\x00\x00\x00xxxxxxxxxxxxxxxxxxxxxxxxxxxxxxxxxxxxxxxxxxxxxxxxxxxxxxxxxxxxxxxxxxxxxxxxxxxxxxxxxxxxxxxxxxxxxxxxxxxxxxxxxxxxxxxxxxxxxxxxxxxxxxxxxxxxxxxxxxxxxxxxxxxxxxxxxxxxxxxxxxxxxxxxxxxxxxxxxxxxxxxxxxxxxxxxxxxxxxxxxxxxxxxxxxxxxxxxxxxxxxxxxxxxxxxxxxxxxxxxxxxxxxxxxxxxxxxx",
                ),
                (7, b"\x00\x00\x00\x00\x00\x00\x00\x05H\x0a"),
                (
                    9,
                    b"\x00\x00\x00\x00\x00\x00\x00\x06\x00\x00\x00\x01\x00\x00\x00\x00",
                ),
            ],
            0,
        ),
        (
            &[
                (
                    3,
                    b"\x00\x00\x00\x00\x00\x00\x00\x00xxxxxxxxxxxxxxxxxxxxxxxxxxxxxxxxxxxxxxxxxxxxxxxxxxxxxxxxxxxxxxxxxxxxxxxxxxxxxxxxxxxxxxxxxxxxxxxxxxxxxxxxxxxxxxxxxxxxxxxxxxxxxxxxxxxxxxxxxxxxxxxxxxxxxxxxxxxxxxxxxxxxxxxxxxxxxxxxxxxxxxxxxxxxxxxxxxxxxxxxxxxxxxxxxxxxxxxxxxxxxxxxxxxxxxxxxxxxxxxxxxxxxxxxxxxxxxxx",
                ),
                (
                    3,
                    b"\x00\x00\x00\x00\x00\x00\x00\x00xxxxxxxxxxxxxxxxxxxxxxxxxxxxxxxxxxxxxxxxxxxxxxxxxxxxxxxxxxxxxxxxxxxxxxxxxxxxxxxxxxxxxxxxxxxxxxxxxxxxxxxxxxxxxxxxxxxxxxxxxxxxxxxxxxxxxxxxxxxxxxxxxxxxxxxxxxxxxxxxxxxxxxxxxxxxxxxxxxxxxxxxxxxxxxxxxxxxxxxxxxxxxxxxxxxxxxxxxxxxxxxxxxxxxxxxxxxxxxxxxxxxxxxxxxxxxxxx",
                ),
                (
                    3,
                    b"\x00\x00\x00\x00\x00\x00\x00\x00xxxxxxxxxxxxxxxxxxxxxxxxxxxxxxxxxxxxxxxxxxxxxxxxxxxxxxxxxxxxxxxxxxxxxxxxxxxxxxxxxxxxxxxxxxxxxxxxxxxxxxxxxxxxxxxxxxxxxxxxxxxxxxxxxxxxxxxxxxxxxxxxxxxxxxxxxxxxxxxxxxxxxxxxxxxxxxxxxxxxxxxxxxxxxxxxxxxxxxxxxxxxxxxxxxxxxxxxxxxxxxxxxxxxxxxxxxxxxxxxxxxxxxxxxxxxxxxx",
                ),
                (
                    3,
                    b"\x00\x00\x00\x00\x00\x00\x00\x00xxxxxxxxxxxxxxxxxxxxxxxxxxxxxxxxxxxxxxxxxxxxxxxxxxxxxxxxxxxxxxxxxxxxxxxxxxxxxxxxxxxxxxxxxxxxxxxxxxxxxxxxxxxxxxxxxxxxxxxxxxxxxxxxxxxxxxxxxxxxxxxxxxxxxxxxxxxxxxxxxxxxxxxxxxxxxxxxxxxxxxxxxxxxxxxxxxxxxxxxxxxxxxxxxxxxxxxxxxxxxxxxxxxxxxxxxxxxxxxxxxxxxxxxxxxxxxxx",
                ),
                (3, b"\x00\x00\x00\x00\x00\x00\x00\x00x"),
                (7, b"\x00\x00\x00\x00\x00\x00\x00\x05H\x0a"),
                (
                    9,
                    b"\x00\x00\x00\x00\x00\x00\x00\x06\x00\x00\x00\x01\x00\x00\x00\x00",
                ),
            ],
            6,
        ),
    ];
    for &(log, fault) in &logs {
        assert_eq!(rt; alone(rt.alloc(), PRINTS, log), Some(fault));
    }
}
