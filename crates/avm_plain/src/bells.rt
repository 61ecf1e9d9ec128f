//! The doorbell of version 2.

ghost use Rattle.std.specs.Prelude.{◌≡◌};
ghost use Rattle.avm_model.specs.Bell.{bell_of as bell_of_lem, is_entered as is_entered_lem, enters_again as enters_again_lem, after_ring as after_ring_lem, pc_after_ring as pc_after_ring_lem, after_return as after_return_lem, pc_after_return as pc_after_return_lem};

use avm_model::Bell;

/// The handler was left.
const IDLE: u8 = 0;
/// The handler was entered.
const INSIDE: u8 = 1;
/// The handler was entered, and something came in since.
const RUNG: u8 = 2;

/// The bell at boot of a machine of this version.
pub fn bell_of(version: u8) -> Option<Bell>
    ensures { result ≡ bell_of_lem version }
{
    if version != 2 {
        return None;
    }
    Some(Bell {
        vector: 0,
        saved: 0,
        state: IDLE,
    })
}

/// The handler was entered and not left.
pub fn is_entered(bell: Option<Bell>) -> bool
    ensures { result ≡ is_entered_lem bell }
{
    match bell {
        None => false,
        Some(bell) => bell.state != IDLE,
    }
}

/// The bell after a ring while pc is this.
pub fn after_ring(bell: Option<Bell>, pc: u32) -> Option<Bell>
    ensures { result ≡ after_ring_lem bell pc }
{
    let bell = bell?;
    Some(if bell.vector == 0 {
        bell
    } else if bell.state == IDLE {
        Bell {
            saved: pc,
            state: INSIDE,
            ..bell
        }
    } else {
        Bell {
            state: RUNG,
            ..bell
        }
    })
}

/// pc after a ring.
pub fn pc_after_ring(bell: Option<Bell>, pc: u32) -> u32
    ensures { result ≡ pc_after_ring_lem bell pc }
{
    match bell {
        Some(bell) if bell.vector != 0 && bell.state == IDLE => bell.vector,
        _ => pc,
    }
}

/// The handler is entered again: it was rung since, and the vector is not 0.
fn enters_again(bell: Bell) -> bool
    ensures { result ≡ enters_again_lem bell }
{
    bell.state == RUNG && bell.vector != 0
}

/// The bell after a return from the handler.
pub fn after_return(bell: Option<Bell>) -> Option<Bell>
    ensures { result ≡ after_return_lem bell }
{
    let bell = bell?;
    let state = if enters_again(bell) { INSIDE } else { IDLE };
    Some(Bell { state, ..bell })
}

/// pc after a return from the handler.
pub fn pc_after_return(bell: Option<Bell>, pc: u32) -> u32
    ensures { result ≡ pc_after_return_lem bell pc }
{
    match bell {
        None => pc,
        Some(bell) => if enters_again(bell) {
            bell.vector
        } else {
            bell.saved
        },
    }
}
