// The texts of one number, compared.
ghost use Rattle.std.specs.Prelude.{◌≡◌};
ghost use Rattle.rebut_texts.specs.Unequal.{unequal_of};

use crate::texts::Unequal;

/// Compares the texts of one number.
pub fn unequal(
    our_link: &[u8; 73],
    our_content: &[u8],
    their_link: &[u8; 73],
    their_content: &[u8],
) -> Unequal
    ensures { result ≡ unequal_of our_link.now our_content.now their_link.now their_content.now }
{
    if our_link != their_link {
        Unequal::Link
    } else if our_content != their_content {
        Unequal::Content
    } else {
        Unequal::No
    }
}
