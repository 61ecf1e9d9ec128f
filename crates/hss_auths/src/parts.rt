// The parts of a signature under two keys, where they would stand.
ghost use Rattle.std.specs.Prelude.{◌≡◌, ◌≤◌, length};
ghost use Rattle.std.specs.Str.{bytes_eq};
ghost use Rattle.hss_model.specs.Hss.{bottom_of, lower_of};

/// The bottom key in a signature whose first one has so many bytes.
pub fn bottom_at(n: usize, sig: &[u8]) -> &[u8]
    requires { n ≤ 10000 }
    ensures { result.now ≡ bottom_of n sig.now }
{
    let from = (4 + n).min(sig.len());
    let to = (60 + n).min(sig.len());
    &sig[from..to]
}

/// The bottom key's signature in it.
pub fn lower_at(n: usize, sig: &[u8]) -> &[u8]
    requires { n ≤ 10000 }
    ensures value { result.now ≡ lower_of n sig.now }
    ensures short { length result.now ≤ length sig.now }
{
    let from = (60 + n).min(sig.len());
    &sig[from..]
}

/// Whether this is the bottom key in it.
pub fn has_bottom(n: usize, bottom: &[u8], sig: &[u8]) -> bool
    requires { n ≤ 10000 }
    ensures { result ≡ bytes_eq (bottom_of n sig.now) bottom.now }
{
    bottom_at(n, sig) == bottom
}
