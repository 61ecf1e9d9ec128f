// Console input of a schedule.
ghost use Rattle.std.specs.Prelude.{◌<◌, ◌≤◌, length};

/// Console input, of 1 to 256 bytes.
#[derive(Drop)]
pub struct Input {
    pub bytes: Vec<u8>,
    pub ghost some: { 0 < length bytes.items },
    pub ghost few: { length bytes.items ≤ 256 },
}
