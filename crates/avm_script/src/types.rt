/// The words are no job: an unknown command or option, an option missing, doubled or without a value,
/// a value outside its grammar, or one name for two files.
#[derive(Clone, Copy, Debug, PartialEq, Eq)]
pub struct BadWords;

/// The names that an audit with a key takes: the public key's file, the authenticators' file, and the file that
/// evidence is written to.
#[derive(Clone, Copy, Debug, PartialEq, Eq)]
pub struct Signed<'a> {
    pub key: &'a str,
    pub auths: &'a str,
    pub evidence: &'a str,
}

/// What the words ask for. It borrows the names from the words; numbers and hexadecimal values are read.
#[derive(Clone, Copy, Debug, PartialEq, Eq)]
pub enum Job<'a> {
    /// Makes a private and a public key file.
    Keygen {
        height: u32,
        w: u32,
        id: [u8; 16],
        seed: [u8; 32],
        key: &'a str,
        public: &'a str,
    },
    /// Makes a store.
    Format {
        store: &'a str,
        key: &'a str,
        config: &'a str,
        image: &'a str,
    },
    /// Runs a script on a store.
    Record {
        store: &'a str,
        key: &'a str,
        script: &'a str,
        packets: &'a str,
        console: &'a str,
        auths: &'a str,
    },
    /// Writes entries of a store as a segment.
    Export {
        store: &'a str,
        from: u64,
        to: u64,
        segment: &'a str,
    },
    /// Judges a segment, and authenticators where they are given.
    Audit {
        segment: &'a str,
        image: Option<&'a str>,
        signed: Option<Signed<'a>>,
    },
    /// Judges evidence.
    Check {
        key: &'a str,
        evidence: &'a str,
    },
    /// Answers evidence by a store.
    Rebut {
        store: &'a str,
        evidence: &'a str,
    },
    /// Prints a store.
    List {
        store: &'a str,
    },
    /// Runs the sample.
    Sample {
        seed: u32,
    },
    /// Moves the entries of a store from a snapshot on into a spare store, and retires it.
    Retain {
        store: &'a str,
        into: &'a str,
        at: u64,
    },
    /// Makes a roll for a key that signs the keys of stores.
    Roll {
        store: &'a str,
        key: &'a str,
    },
    /// Binds a store's key in a roll, and endorses it.
    Enroll {
        store: &'a str,
        key: &'a str,
        public: &'a str,
        endorse: &'a str,
    },
    /// Turns authenticators into those of two levels.
    Widen {
        endorse: &'a str,
        auths: &'a str,
        out: &'a str,
    },
    /// Verifies authenticators of two levels, and turns them into those of one key.
    Narrow {
        key: &'a str,
        auths: &'a str,
        public: &'a str,
        out: &'a str,
    },
    /// Shows the guest's state at a count, and `words` words of its RAM from an address on; both are 0 where none is asked
    /// for.
    ViewAt {
        segment: &'a str,
        count: u64,
        from: u32,
        words: u32,
    },
    /// Shows the changes of a word of RAM.
    ViewChanges {
        segment: &'a str,
        at: u32,
    },
}
