// The signature of a bottom key at its leaf.
ghost use Rattle.std.specs.Prelude.{◌≡◌, ◌≤◌, ◌<◌, ◌+◌, ◌*◌, ◌^◌};
ghost use Rattle.avm_model.specs.LmsTypes.{height_of, chains_of};
ghost use Rattle.avm_model.specs.Keys.{public_of, sig_of};
ghost use Rattle.avm_model.specs.LmsValid.{Valid};
ghost use Rattle.avm_num.specs.Room.{with_bytes, left};

use crate::granted::Granted;
use avm_num::Room;
use lms_tree::LmsKey;

/// Appends the top key's signature of a bottom key at the leaf that the roll binds it to.
pub fn endorse(key: &LmsKey, granted: &Granted, out: &mut Room)
    requires leaf { granted.now.leaf < 2 ^ height_of key.now.lms }
    requires room { 44 + 32 * chains_of key.now.ots + 32 * height_of key.now.lms ≤ left out.old }
    ensures value { out.new ≡ with_bytes out.old (sig_of key.now granted.now.leaf granted.now.bottom) }
    ensures left { left out.new + (44 + 32 * chains_of key.now.ots + 32 * height_of key.now.lms) ≡ left out.old }
    ensures equations { Valid (public_of key.now) granted.now.bottom (sig_of key.now granted.now.leaf granted.now.bottom) }
{
    key.sign(granted.leaf(), &granted.bottom(), out);
}
