//! The authenticators with which a segment is audited.

ghost use Rattle.std.specs.Prelude.{◌≡◌, ◌&&◌, nat_le, [], if◌then◌else◌};
ghost use Rattle.avm_outside.specs.MemOutlets.{outlet_released};
ghost use Rattle.sample_lines.specs.Judging.{first_or_none};

use avm_outside::MemOutlet;

/// The first authenticator that was released, or nothing.
pub fn seal_of(outlet: &MemOutlet) -> &[u8]
    ensures { result.now ≡ first_or_none (outlet_released outlet.now).auths }
{
    match outlet.auth_at(0) {
        Some(bytes) => bytes,
        None => &[],
    }
}

/// It where the last entry is among those from..to, and else nothing.
pub fn auths_for(seal: &[u8], last: u64, from: u64, to: u64) -> &[u8]
    ensures { result.now ≡ (if nat_le from last && nat_le last to then seal.now else []) }
{
    if from <= last && last <= to {
        return seal;
    }
    &[]
}
