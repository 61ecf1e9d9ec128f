ghost use Rattle.avm_num.specs.Bytes.{Takes};
ghost use Rattle.avm_model.specs.Parts.{count_at, ordinal_at, signature_at};

use avm_num::View;

/// A count of steps.
#[tactic(auto, unfolding(avm_model::specs::Parts::count_at))]
pub fn take_count(view: &mut View<'_>) -> Option<u64>
    ensures { Takes (λ n. n) result view.old view.new (count_at view.old) }
{
    let mut rest = View::new(view.rest());
    let count = rest.take_u64()?;
    if count >= 1 << 62 {
        return None;
    }
    *view = rest;
    Some(count)
}

/// The number of an entry or a message.
#[tactic(auto, unfolding(avm_model::specs::Parts::ordinal_at))]
pub fn take_ordinal(view: &mut View<'_>) -> Option<u64>
    ensures { Takes (λ n. n) result view.old view.new (ordinal_at view.old) }
{
    let mut rest = View::new(view.rest());
    let number = rest.take_u64()?;
    if number < 1 || number >= 1 << 62 {
        return None;
    }
    *view = rest;
    Some(number)
}

/// A signature behind its length.
#[tactic(auto, unfolding(avm_model::specs::Parts::signature_at))]
pub fn take_signature<'a>(view: &mut View<'a>) -> Option<&'a [u8]>
    ensures { Takes (λ s. s.now) result view.old view.new (signature_at view.old) }
{
    let mut rest = View::new(view.rest());
    let len = rest.take_u32()?;
    let sig = rest.take(len as usize)?;
    if sig.len() > 9324 {
        return None;
    }
    *view = rest;
    Some(sig)
}
