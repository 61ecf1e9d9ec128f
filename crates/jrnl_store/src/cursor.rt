use jrnl_part::Standing;

/// A place among a journal's items: whether the carried entries are still in front of it, the place of a gate, and where the
/// journal stands there.
#[derive(Clone, Copy)]
pub struct Cursor {
    pub(crate) carried: bool,
    pub(crate) place: u64,
    pub(crate) stand: Standing,
}

/// Items that a journal has read into its buffer: the carried entries, or a record, of so many bytes, and where the journal
/// stands before them.
#[derive(Clone, Copy)]
pub struct Record {
    pub(crate) carried: bool,
    pub(crate) size: usize,
    pub(crate) stand: Standing,
}

/// An entry that a journal has sought: the items that it has read into its buffer, and the entry's number.
#[derive(Clone, Copy)]
pub struct Sought {
    pub(crate) held: Record,
    pub(crate) number: u64,
}
