// Authenticators become those under two keys.
ghost use Rattle.std.specs.Prelude.{◌≡◌, ◌≤◌, ◌+◌, ◌^◌, length};
ghost use Rattle.avm_num.specs.Room.{with_bytes, left};
ghost use Rattle.avm_model.specs.Auth.{auth_bytes};
ghost use Rattle.avm_auth.specs.Views.{auth_view};
ghost use Rattle.hss_model.specs.HssFile.{widened, widen_of};
ghost use Rattle.hss_auths.specs.Lengths.{CanWiden};
ghost use Rattle.hss_auths.specs.Views.{endorsement_view};

use crate::Endorsement;
use avm_auth::{Auth, Auths};
use avm_num::Room;

/// How many there are.
pub fn count_auths(auths: Auths<'_>) -> usize
    requires { length auths ≤ 2 ^ 24 }
    ensures { result ≡ length auths.entry }
{
    let mut n = 0;
    for _auth in auths {
        n += 1;
    }
    n
}

/// Does nothing. Its clause says what the type says.
fn is_digest(bytes: &[u8; 32])
    ensures { length bytes.now ≡ 32 }
{}

/// Appends an authenticator with an endorsement's parts before its own signature.
fn put_one(out: &mut Room, endorsement: &Endorsement<'_>, auth: &Auth<'_>)
    requires upper { length endorsement.now.upper.now ≤ 9324 }
    requires bottom { length endorsement.now.bottom.now ≡ 56 }
    requires short { length auth.now.sig.now ≤ 9324 }
    requires room { 104 + length endorsement.now.upper.now + length auth.now.sig.now ≤ left out.old }
    ensures value { out.new ≡ with_bytes out.old (auth_bytes (widened (endorsement_view endorsement.now) (auth_view auth.now))) }
    ensures left { left out.new + (104 + length endorsement.now.upper.now + length auth.now.sig.now) ≡ left out.old }
{
    let len = 60 + endorsement.upper.len() + auth.sig.len();
    is_digest(&auth.hash.0);
    out.put_u64(auth.seq);
    out.put(&auth.hash.0);
    out.put_u32(len as u32);
    out.put_u32(1);
    out.put(endorsement.upper);
    out.put(endorsement.bottom);
    out.put(auth.sig);
}

/// Appends authenticators with an endorsement's parts before their own signatures.
pub fn put_widened(out: &mut Room, endorsement: &Endorsement<'_>, auths: Auths<'_>)
    requires bottom { length endorsement.now.bottom.now ≡ 56 }
    requires can { CanWiden (endorsement_view endorsement.now) auths (left out.old) }
    ensures { out.new ≡ with_bytes out.old (widen_of (endorsement_view endorsement.now) auths.entry) }
{
    for auth in auths {
        put_one(out, endorsement, &auth);
    }
}
