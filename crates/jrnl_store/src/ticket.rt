ghost use Rattle.std.specs.Prelude.{◌≡◌, ◌<◌, ◌^◌};

use jrnl_part::Signed;

/// The right to sign one item at its leaf. Only the journal makes tickets, of items that it has acknowledged.
#[derive(Clone, Copy)]
pub struct Ticket {
    pub(crate) item: Signed,
    ghost low: { item.leaf < 2 ^ 15 },
}

impl Ticket {
    pub(crate) fn new(item: Signed) -> Ticket
        requires { item.leaf < 2 ^ 15 }
        ensures { result.item ≡ item }
    {
        Ticket { item }
    }
}
