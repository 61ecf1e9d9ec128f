// Authenticators under two keys become those of their bottom key.
ghost use Rattle.std.specs.Prelude.{◌≡◌, ◌≤◌, ◌^◌, true, Some, length};
ghost use Rattle.avm_num.specs.Room.{left};
ghost use Rattle.avm_model.specs.Keys.{public_file};
ghost use Rattle.hss_model.specs.HssFile.{narrow_of, narrow_auths};
ghost use Rattle.hss_auths.specs.Lengths.{size_with};
ghost use Rattle.hss_files.specs.Answers.{NarrowAnswers};

use crate::judging::{first_bad, upper_len};
use avm_num::Room;
use hss_auths::{HssAuths, bottom_at, first_mixed, put_narrowed, read_hss_auths};

/// What became of authenticators under two keys.
#[derive(Clone, Copy, Debug, PartialEq, Eq)]
pub enum Narrowed {
    /// They aren't one or more authenticators, of at most 2^25 bytes.
    Malformed,
    /// The first that isn't valid under the two keys.
    BadAuth(u32),
    /// The first with another bottom key than the first one's.
    Mixed(u32),
    /// The bottom key, and how many authenticators were written.
    Under([u8; 56], u32),
}

fn array_of(bytes: &[u8]) -> [u8; 56]
    requires { length bytes.now ≡ 56 }
    ensures { result ≡ bytes.now }
{
    let mut key = [0; 56];
    key.copy_from_slice(bytes);
    key
}

/// Verifies authenticators, and appends them with their lower signatures alone.
fn judge(top: &[u8; 56], auths: HssAuths<'_>, out: &mut Room) -> Narrowed
    requires key { public_file top.now ≡ true }
    requires few { length auths ≤ 2 ^ 25 }
    requires room { size_with 0 auths ≤ left out.old }
    requires short { size_with 0 auths ≤ 2 ^ 25 }
    ensures { NarrowAnswers (narrow_auths top.now (Some auths.entry)) out.old out.new result }
{
    let mut rest = auths.again();
    let Some(first) = rest.next() else {
        return Narrowed::Malformed;
    };
    if let Some(k) = first_bad(top, auths.again()) {
        return Narrowed::BadAuth(k);
    }
    let n = upper_len(top);
    let bottom = bottom_at(n, first.sig);
    if let Some(k) = first_mixed(n, bottom, auths.again()) {
        return Narrowed::Mixed(k);
    }
    let bottom = array_of(bottom);
    Narrowed::Under(bottom, put_narrowed(out, n, auths))
}

/// Verifies one or more authenticators under a top key and one bottom key, and appends those of the bottom key. The order of the
/// refusals: malformed, the first that isn't valid, the first with another bottom key; then nothing is appended.
pub fn narrow(top: &[u8; 56], bytes: &[u8], out: &mut Room) -> Narrowed
    requires key { public_file top.now ≡ true }
    requires room { length bytes.now ≤ left out.old }
    ensures { NarrowAnswers (narrow_of top.now bytes.now) out.old out.new result }
{
    if bytes.len() > 1 << 25 {
        return Narrowed::Malformed;
    }
    match read_hss_auths(bytes) {
        Some(auths) => judge(top, auths, out),
        None => Narrowed::Malformed,
    }
}
