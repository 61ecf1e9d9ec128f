//! Guests for tests, as instruction words. Each begins at 80000000.
#![tactic(auto)]

/// Prints a line, and halts.
pub const PRINTS: &[u32] = &[
    0x1000_02b7,
    0x0480_0313,
    0x0062_a023,
    0x00a0_0313,
    0x0062_a023,
    0x0000_0073,
];

/// Puts a byte into the line, counts, and halts at count 1024.
pub const COUNTS: &[u32] = &[
    0x1000_02b7,
    0x0480_0313,
    0x0062_a023,
    0x0000_0013,
    0x1fd0_0393,
    0xfff3_8393,
    0xfe03_9ee3,
    0x0000_0073,
];

/// Reads the clock, and halts.
pub const ASKS: &[u32] = &[0x1000_02b7, 0x0082_a883, 0x0000_0073];

/// Reads a console byte, and halts.
pub const READS: &[u32] = &[0x1000_02b7, 0x0042_a883, 0x0000_0073];

/// Jumps to itself.
pub const SPINS: &[u32] = &[0x0000_006f];

/// Waits, echoes console bytes, halts on byte 4, and sends each message back after a clock and 8192 rounds.
pub const ECHO: &[u32] = &[
    0x1000_02b7,
    0x1000_1337,
    0x1000_23b7,
    0x0002_a823,
    0x0042_a403,
    0x0004_4a63,
    0x0040_0493,
    0x0694_0063,
    0x0082_a023,
    0xfe9f_f06f,
    0x0142_a483,
    0xfe04_c0e3,
    0x0182_a503,
    0x02a2_a023,
    0x0292_a223,
    0x0000_0593,
    0x0095_de63,
    0x00b3_0633,
    0x0006_2683,
    0x00b3_8733,
    0x00d7_2023,
    0x0045_8593,
    0xfe9f_f06f,
    0x0002_ae23,
    0x0082_a883,
    0x0000_27b7,
    0x02f8_0833,
    0xfff7_8793,
    0xfe07_9ce3,
    0x0202_a423,
    0xf95f_f06f,
    0x0000_0073,
];

/// Sets its handler, the sixth word, and jumps to itself. The handler prints a console byte, and returns.
pub const RINGS: &[u32] = &[
    0x1000_02b7,
    0x0000_0317,
    0x0103_0313,
    0x0262_a823,
    0x0000_006f,
    0x0042_a403,
    0x0082_a023,
    0x0202_ac23,
];

/// Sets its handler, the ninth word, and waits. The handler prints a console byte if there is one, sends the first four
/// bytes of a message back with its length, reads the result and the saved pc, and returns.
pub const ANSWERS: &[u32] = &[
    0x1000_02b7,
    0x1000_1337,
    0x1000_23b7,
    0x0000_0417,
    0x0144_0413,
    0x0282_a823,
    0x0002_a823,
    0xffdf_f06f,
    0x0042_a483,
    0x0004_c463,
    0x0092_a023,
    0x0142_a503,
    0x0205_4263,
    0x0182_a583,
    0x02b2_a023,
    0x02a2_a223,
    0x0003_2603,
    0x00c3_a023,
    0x0002_ae23,
    0x0202_a423,
    0x02c2_a683,
    0x0342_a703,
    0x0202_ac23,
];
