ghost use Rattle.std.specs.Prelude.{◌≡◌, ◌≤◌, ◌<◌, ◌+◌, ◌∷◌, ◌++◌, ℕ, take, drop, length, slice_index};
ghost use Rattle.lms_ots.specs.Chains.{text_at, HasGone};

use lane_kern::sha256_x8;

// Eight chains side by side, each at a step of its own.

fn put_number(text: &mut [u8], j: u8)
    requires { length text.old ≡ 55 }
    ensures { text.new ≡ take 22 text.old ++ (j ∷ drop 23 text.old) }
{
    text[22] = j;
}

fn put_value(text: &mut [u8], value: &[u8; 32])
    requires { length text.old ≡ 55 }
    ensures { text.new ≡ take 23 text.old ++ value.now }
{
    text[23..].copy_from_slice(value);
}

/// One step of each chain: the step that comes `done` steps behind the one in `at`.
fn advance(texts: &mut [[u8; 55]; 8], at: &[usize; 8], done: usize)
    requires { (k : ℕ) → k < 8 → slice_index at.now k + done < 256 }
    ensures { (k : ℕ) → k < 8 → HasGone (text_at texts.old k) (slice_index at.now k + done) (slice_index at.now k + (done + 1)) (text_at texts.new k) }
{
    for k in 0..8 {
        put_number(&mut texts[k], (at[k] + done) as u8);
    }
    let next = sha256_x8(texts, 55);
    'values: for k in 0..8 {
        put_value(&mut texts[k], &next[k]);
    }
}

/// As many steps of each chain, from its step in `at` on.
pub fn walk_eight(texts: &mut [[u8; 55]; 8], at: &[usize; 8], steps: usize)
    requires { (k : ℕ) → k < 8 → slice_index at.now k + steps ≤ 256 }
    ensures { (k : ℕ) → k < 8 → HasGone (text_at texts.old k) (slice_index at.now k) (slice_index at.now k + steps) (text_at texts.new k) }
{
    for done in 0..steps {
        advance(texts, at, done);
    }
}
