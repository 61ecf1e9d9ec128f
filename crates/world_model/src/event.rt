//! The events of a schedule.

/// What is done at a node.
#[derive(Clone, Copy)]
pub enum Act<'a> {
    /// A turn without an event.
    Turn,
    /// The packet of this number of the pool comes in, whoever it was sent to.
    Deliver(u32),
    /// Console input, of 1 to 256 bytes.
    Console(&'a [u8]),
    /// The outstanding packet to this peer is sent again.
    Resend(u32),
    /// A seal.
    Seal,
}

/// A crash behind the act: the node goes on from an image of its disk.
#[derive(Clone, Copy)]
pub struct Crash {
    /// The image is the one behind so many of the act's disk calls, or behind all of them where there were fewer.
    pub calls: u32,
    /// Whether the image has the greatest length that it may have, or the least.
    pub long: bool,
    /// The byte in each place where the image may have any.
    pub fill: u8,
}

/// An act at a node, and the crash behind it, where there is one.
#[derive(Clone, Copy)]
pub struct Event<'a> {
    pub node: u32,
    pub act: Act<'a>,
    pub crash: Option<Crash>,
}
