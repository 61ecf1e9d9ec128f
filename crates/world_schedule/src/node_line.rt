// A node of a schedule.
ghost use Rattle.std.specs.Prelude.{◌≡◌, ◌≤◌, length, true};
ghost use Rattle.world_schedule.specs.Schedule.{is_flat};

/// A node of a schedule: the seed of its key, and the flat image that it boots, of 1 to 4096 bytes.
#[derive(Drop)]
pub struct NodeLine {
    pub seed: [u8; 32],
    pub image: Vec<u8>,
    pub ghost few: { length image.items ≤ 4096 },
    pub ghost flat: { is_flat image.items ≡ true },
}
