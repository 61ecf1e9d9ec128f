// Bytes up to a byte, and words.
ghost use Rattle.std.specs.Prelude.{◌≡◌, ◌<◌, length, option_map, IfSome};
ghost use Rattle.avm_script.specs.Script.{cut_at};
ghost use Rattle.world_schedule.specs.Schedule.{word_at};

// What stands before the first such byte, and what stands behind it. None exactly where there is none.
pub fn cut(bytes: &[u8], byte: u8) -> Option<(&[u8], &[u8])>
    ensures value { option_map (λ p. (p.0.now, p.1.now)) result ≡ cut_at byte bytes.now }
    ensures shorter { IfSome result (λ p. length p.1.now < length bytes.now) }
{
    match bytes.iter().position(|b| *b == byte) {
        Some(place) => Some((&bytes[..place], &bytes[place + 1..])),
        None => None,
    }
}

// The first word, and what stands behind the space where there is one.
#[tactic(auto, unfolding(crate::specs::Schedule::word_at))]
pub fn word(text: &[u8]) -> (&[u8], Option<&[u8]>)
    ensures { (result.0.now, option_map (λ t. t.now) result.1) ≡ word_at text.now }
{
    match cut(text, b' ') {
        Some((word, behind)) => (word, Some(behind)),
        None => (text, None),
    }
}
