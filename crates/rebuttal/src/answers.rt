use rebut_texts::Bytes;

/// What the owner of a journal answers to evidence: an authenticator, counted from 0 in the evidence, that the journal has never
/// signed; or two texts that differ and have one SHA-256 value, the journal's first.
#[derive(Drop)]
pub enum Rebuttal {
    Forged(u32),
    Collision(Bytes, Bytes),
}
