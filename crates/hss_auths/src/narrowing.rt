// Authenticators under two keys become those of the bottom key.
ghost use Rattle.std.specs.Prelude.{◌≡◌, ◌≤◌, ◌^◌, not, length, map};
ghost use Rattle.std.specs.Str.{bytes_eq};
ghost use Rattle.avm_num.specs.Lists.{list_bytes};
ghost use Rattle.avm_num.specs.Room.{with_bytes, left};
ghost use Rattle.avm_model.specs.Auth.{auth_bytes};
ghost use Rattle.avm_model.specs.Basics.{first_at};
ghost use Rattle.hss_model.specs.Hss.{bottom_of};
ghost use Rattle.hss_model.specs.HssFile.{narrowed};
ghost use Rattle.hss_auths.specs.Lengths.{size_with};

use crate::HssAuths;
use crate::parts::{has_bottom, lower_at};
use avm_auth::put_auth;
use avm_num::Room;

/// The first with another bottom key.
pub fn first_mixed(n: usize, bottom: &[u8], auths: HssAuths<'_>) -> Option<u32>
    requires small { n ≤ 10000 }
    requires few { length auths ≤ 2 ^ 25 }
    ensures { result ≡ first_at (λ a. not (bytes_eq (bottom_of n a.sig) bottom.now)) 0 auths.entry }
{
    let mut i = 0;
    for auth in auths {
        if !has_bottom(n, bottom, auth.sig) {
            return Some(i);
        }
        i += 1;
    }
    None
}

/// Appends authenticators with their lower signatures alone, and gives how many there are.
pub fn put_narrowed(out: &mut Room, n: usize, auths: HssAuths<'_>) -> u32
    requires small { n ≤ 10000 }
    requires few { length auths ≤ 2 ^ 25 }
    requires room { size_with 0 auths ≤ left out.old }
    requires short { size_with 0 auths ≤ 2 ^ 25 }
    ensures value { out.new ≡ with_bytes out.old (list_bytes auth_bytes (map (narrowed n) auths.entry)) }
    ensures count { result ≡ length auths.entry }
{
    let mut count = 0;
    for auth in auths {
        put_auth(out, auth.seq, &auth.hash, lower_at(n, auth.sig));
        count += 1;
    }
    count
}
