ghost use Rattle.std.specs.Prelude.{◌≡◌, ◌≤◌, ◌<◌, ◌*◌, ◌-◌, ◌^◌};
ghost use Rattle.avm_model.specs.LmsTypes.{IsOts, width_of, chains_of, shift_of};
ghost use Rattle.lms_ots.specs.Buffer.{IsWidth};

/// w, the bits of a digit (RFC 8554, section 4.1, table 1).
#[tactic(auto, unfolding(avm_model::specs::LmsTypes::width_of))]
pub fn width(ots: u32) -> usize
    requires { IsOts ots }
    ensures value { result ≡ width_of ots }
    ensures divides { IsWidth result }
{
    match ots {
        1 => 1,
        2 => 2,
        3 => 4,
        _ => 8,
    }
}

/// p, the number of chains (RFC 8554, section 4.1, table 1).
#[tactic(auto, unfolding(avm_model::specs::LmsTypes::chains_of, avm_model::specs::LmsTypes::width_of))]
pub fn chains(ots: u32) -> usize
    requires { IsOts ots }
    ensures value { result ≡ chains_of ots }
    ensures few { result ≤ 265 }
    ensures fits { result * width_of ots ≤ 272 }
{
    match ots {
        1 => 265,
        2 => 133,
        3 => 67,
        _ => 34,
    }
}

/// ls, the shift of the checksum (RFC 8554, section 4.1, table 1).
#[tactic(auto, unfolding(avm_model::specs::LmsTypes::shift_of))]
pub fn shift(ots: u32) -> u32
    requires { IsOts ots }
    ensures value { result ≡ shift_of ots }
    ensures few { result ≤ 7 }
{
    match ots {
        1 => 7,
        2 => 6,
        3 => 4,
        _ => 0,
    }
}

/// 2^w - 1, the number of steps of a whole chain.
pub fn last_step(ots: u32) -> usize
    requires { IsOts ots }
    ensures value { result ≡ 2 ^ width_of ots - 1 }
    ensures short { result < 2 ^ 8 }
{
    (1 << width(ots)) - 1
}
