ghost use Rattle.std.specs.Prelude.{◌≡◌};
ghost use Rattle.std.specs.Int.{w16, w32};
ghost use Rattle.avm_num.specs.Bytes.{Takes, number_at};
ghost use Rattle.avm_num.specs.Lists.{list_at};

use avm_num::View;

/// Two bytes as a number.
pub fn take_u16(view: &mut View<'_>) -> Option<u16>
    ensures { Takes (λ n. n) result view.old view.new (number_at w16 view.old) }
{
    let bytes = view.take(2)?;
    Some(u16::from_be_bytes([bytes[0], bytes[1]]))
}

/// Registers 1 to 31.
#[tactic(auto, using(avm_num::proofs::Loops::front_goes, avm_num::proofs::Loops::front_none, avm_num::proofs::Loops::front_ends))]
pub fn take_registers(view: &mut View<'_>) -> Option<[u32; 31]>
    ensures { Takes (λ x. x) result view.old view.new (list_at (number_at w32) 31 view.old) }
{
    let mut rest = View::new(view.rest());
    let mut registers = [0; 31];
    for i in 0..31 {
        registers[i] = rest.take_u32()?;
    }
    *view = rest;
    Some(registers)
}
