//! How many bytes a journal's carried entries have.

ghost use Rattle.std.specs.Prelude.{◌≤◌, ◌^◌};

/// How many bytes the carried entries have that were read so far.
#[derive(Drop)]
pub struct Carriage {
    pub size: u64,
    pub ghost small: { size ≤ 2 ^ 32 },
}
