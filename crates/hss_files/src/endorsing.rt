// The file of an endorsement.
ghost use Rattle.std.specs.Prelude.{◌≡◌, ◌≤◌, ◌<◌, ◌+◌, ◌*◌, ◌^◌};
ghost use Rattle.avm_num.specs.Room.{with_bytes, left};
ghost use Rattle.avm_model.specs.LmsTypes.{height_of, chains_of};
ghost use Rattle.avm_model.specs.Keys.{sig_of};
ghost use Rattle.hss_model.specs.HssFile.{endorsement_bytes};

use avm_num::Room;
use lms_hss::{Granted, endorse};
use lms_tree::LmsKey;

/// Appends the endorsement of a bottom key: the top key's signature of it at the leaf that the roll binds it to, and the key.
#[tactic(auto, unfolding(hss_model::specs::HssFile::endorsement_bytes))]
pub fn put_endorsement(key: &LmsKey, granted: &Granted, out: &mut Room)
    requires leaf { granted.now.leaf < 2 ^ height_of key.now.lms }
    requires room { 9388 ≤ left out.old }
    ensures { out.new ≡ with_bytes out.old (endorsement_bytes (record { upper = sig_of key.now granted.now.leaf granted.now.bottom; bottom = granted.now.bottom })) }
{
    let len = key.signature_len();
    out.put(&[65, 86, 77, 78]);
    out.put_u32(len as u32);
    endorse(key, granted, out);
    out.put(&granted.bottom());
}
