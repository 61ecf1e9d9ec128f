/// What an entry says. Each content has the count of the step at which it came or was made.
#[derive(Clone, Copy)]
pub enum Content<'a> {
    /// The first entry of a log, with the root of the initial state. The count is 0.
    Boot {
        count: u64,
        root: [u8; 32],
    },
    /// The root of the state.
    Snap {
        count: u64,
        root: [u8; 32],
    },
    /// 1 to 256 bytes from the console.
    ConIn {
        count: u64,
        bytes: &'a [u8],
    },
    /// The clock's value.
    Clock {
        count: u64,
        value: u64,
    },
    /// A DATA packet from a peer.
    Recv {
        count: u64,
        packet: &'a [u8],
    },
    /// A peer's ACK packet.
    Acked {
        count: u64,
        packet: &'a [u8],
    },
    /// A line of 1 to 128 bytes.
    Out {
        count: u64,
        bytes: &'a [u8],
    },
    /// A message of at most 1024 bytes to a peer; its number is from 1 to 2^62 - 1.
    Send {
        count: u64,
        peer: u32,
        number: u64,
        payload: &'a [u8],
    },
    /// The cause of the halt, and its value.
    Halt {
        count: u64,
        cause: u32,
        value: u32,
    },
}
