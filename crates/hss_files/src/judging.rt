// Authenticators under two keys are verified.
ghost use Rattle.std.specs.Prelude.{◌≡◌, ◌≤◌, ◌^◌, not, true, length};
ghost use Rattle.avm_auth.specs.Views.{auth_view};
ghost use Rattle.avm_model.specs.Basics.{first_at};
ghost use Rattle.avm_model.specs.Keys.{public_file};
ghost use Rattle.hss_model.specs.Hss.{hss_key, signature_length};
ghost use Rattle.hss_model.specs.HssFile.{is_good};

use avm_auth::{Auth, signed_text};
use hss_auths::HssAuths;
use lms_hss::hss_verify;
use lms_tree::signature_len;

/// The HSS key of a top key.
#[tactic(auto, unfolding(avm_num::specs::Lists::be))]
fn key_of(top: &[u8; 56]) -> [u8; 60]
    ensures { result ≡ hss_key top.now }
{
    let mut key = [0u8; 60];
    key[..4].copy_from_slice(&[0, 0, 0, 2]);
    key[4..].copy_from_slice(top);
    key
}

/// Whether an authenticator is valid under the two keys.
fn is_valid(top: &[u8; 56], auth: &Auth<'_>) -> bool
    ensures { result ≡ is_good top.now (auth_view auth.now) }
{
    hss_verify(&key_of(top), &signed_text(auth.seq, &auth.hash), auth.sig)
}

/// The first that isn't valid.
pub fn first_bad(top: &[u8; 56], auths: HssAuths<'_>) -> Option<u32>
    requires { length auths ≤ 2 ^ 25 }
    ensures { result ≡ first_at (λ a. not (is_good top.now a)) 0 auths.entry }
{
    let mut i = 0;
    for auth in auths {
        if !is_valid(top, &auth) {
            return Some(i);
        }
        i += 1;
    }
    None
}

/// The length of a signature under a public key.
#[tactic(auto, unfolding(avm_model::specs::Keys::public_file, avm_model::specs::LmsValid::has_types))]
pub fn upper_len(top: &[u8; 56]) -> usize
    requires { public_file top.now ≡ true }
    ensures value { result ≡ signature_length top.now }
    ensures small { result ≤ 10000 }
{
    let lms = u32::from_be_bytes([top[0], top[1], top[2], top[3]]);
    let ots = u32::from_be_bytes([top[4], top[5], top[6], top[7]]);
    signature_len(lms, ots)
}
