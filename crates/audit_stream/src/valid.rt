//! One authenticator: its signature, and its hash.

ghost use Rattle.std.specs.Prelude.{◌≡◌};
ghost use Rattle.std.specs.Str.{bytes_eq};
ghost use Rattle.avm_auth.specs.Views.{auth_view};
ghost use Rattle.avm_model.specs.Marks.{verifies};

use avm_auth::{Auth, signed_text};
use avm_model::Digest;
use lms_tree::verify;

/// Whether the signature is valid under the key.
pub fn is_valid(key: &[u8; 56], auth: &Auth<'_>) -> bool
    ensures { result ≡ verifies key.now (auth_view auth.now) }
{
    let text = signed_text(auth.seq, &auth.hash);
    verify(key, &text, auth.sig)
}

/// Whether two hashes are one.
pub fn is_same(a: &Digest, b: &Digest) -> bool
    ensures { result ≡ bytes_eq a.now.0 b.now.0 }
{
    a.0 == b.0
}
