// One authenticator under two keys.
ghost use Rattle.std.specs.Prelude.{◌≡◌, length};
ghost use Rattle.avm_num.specs.Bytes.{Takes};
ghost use Rattle.avm_auth.specs.Views.{auth_view};
ghost use Rattle.hss_model.specs.HssFile.{hss_auth_at};

use avm_auth::Auth;
use avm_hash::Digest;
use avm_num::View;

fn digest_of(bytes: &[u8]) -> Digest
    requires { length bytes.now ≡ 32 }
    ensures { result.0 ≡ bytes.now }
{
    let mut digest = [0; 32];
    digest.copy_from_slice(bytes);
    Digest(digest)
}

/// The authenticator at the front, or none where no authenticator stands there; then the view is left as it was.
#[tactic(auto, unfolding(hss_model::specs::HssFile::hss_auth_at, hss_model::specs::HssFile::hss_signature_at, avm_model::specs::Parts::ordinal_at))]
pub fn read_hss_auth<'a>(view: &mut View<'a>) -> Option<Auth<'a>>
    ensures { Takes auth_view result view.old view.new (hss_auth_at view.old) }
{
    let mut rest = View::new(view.rest());
    let seq = rest.take_u64()?;
    if seq < 1 || seq >= 1 << 62 {
        return None;
    }
    let hash = rest.take(32)?;
    let len = rest.take_u32()?;
    let sig = rest.take(len as usize)?;
    if sig.len() > 18708 {
        return None;
    }
    *view = rest;
    Some(Auth {
        seq,
        hash: digest_of(hash),
        sig,
    })
}
