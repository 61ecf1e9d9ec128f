// The right to sign a bottom key.
ghost use Rattle.std.specs.Prelude.{◌≡◌};

/// The right to sign a bottom key at a leaf of the top key. Only `Roll::enroll` makes it, once the roll binds the key to that leaf.
#[derive(Clone, Copy)]
pub struct Granted {
    leaf: u32,
    bottom: [u8; 56],
}

impl Granted {
    pub(crate) fn new(leaf: u32, bottom: [u8; 56]) -> Granted
        ensures leaf { result.leaf ≡ leaf }
        ensures bottom { result.bottom ≡ bottom }
    {
        Granted { leaf, bottom }
    }

    /// The leaf of the top key.
    pub fn leaf(&self) -> u32
        ensures { result ≡ self.now.leaf }
    {
        self.leaf
    }

    /// The bottom key.
    pub fn bottom(&self) -> [u8; 56]
        ensures { result ≡ self.now.bottom }
    {
        let bottom = self.bottom;
        bottom
    }
}
