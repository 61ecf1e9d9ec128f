//! The keys, the image, a message and the packets of a sample, by an independent program.

ghost use Rattle.std.specs.Prelude.{◌≡◌};

use avm_hash::hash;
use rand_chacha::ChaCha20Rng;
use sample_parts::{Peer, draw_image, draw_key, draw_message, generator};
use std::alloc::Global;

// The public key of the second node of sample 7, and hashes of the image, the first message, its DATA packet, and the ACK of that.
const PUBLIC: &str =
    "0000000600000004d962f64685658725de678d1d15c64c3376d8ad31e94204381aec7550d3dce535e30bd16e15457b2eca19ab14e2283594";

const IMAGE: &str = "9b862d6d9eeeb777bda66601aabff765f617950ec555a74946a4d727dfe45e07";

const MESSAGE: &str = "4eda54b7170b42e998df30d6813b8c2acc5215b76862a6753ac5d0d8613b29d0";

const DATA: &str = "c5a88234006a23374a41fc68739538fc5e9c4a14b6f65a69afab78e143ddeb38";

const ACK: &str = "147c2a9c3a3f4505c36288f682019a03ec116f92545b04e66f668e1759c0551b";

fn is_hash(alloc: Global, bytes: &[u8], text: &str) -> Option<bool> {
    Some(hex::encode(alloc, &hash(bytes).0).ok()?.as_str() == text)
}

/// Whether a node with the key has the packets of its first message and of that one's receipt.
fn sends(alloc: Global, rng: &mut ChaCha20Rng, peer: &mut Peer) -> Option<bool>
    requires last { peer.old.log.last ≡ 0 }
    requires height { peer.old.log.key.lms ≡ 6 }
{
    let message = draw_message(alloc, rng).ok()?;
    if !is_hash(alloc, &message, MESSAGE)? || message.len() > 1024 {
        return Some(false);
    }
    peer.send(1, &message);
    let data = Vec::from_slice(alloc, peer.packet()).ok()?;
    if !is_hash(alloc, &data, DATA)? || data.len() > 10421 {
        return Some(false);
    }
    peer.answer(&data);
    is_hash(alloc, peer.packet(), ACK)
}

fn is_sample(alloc: Global) -> Option<bool> {
    let mut rng = generator(7);
    let _first = draw_key(alloc, &mut rng).ok()?;
    let second = draw_key(alloc, &mut rng).ok()?;
    if second.lms != 6 {
        return Some(false);
    }
    let image = draw_image(alloc, &mut rng).ok()?;
    let mut peer = Peer::new(alloc, &second).ok()?;
    let public = hex::encode(alloc, &peer.public()).ok()?;
    Some(
        public.as_str() == PUBLIC
            && is_hash(alloc, &image, IMAGE)?
            && sends(alloc, &mut rng, &mut peer)?,
    )
}

#[test]
fn keys_image_and_packets(rt: HostRuntime) {
    assert_eq!(rt; is_sample(rt.alloc()), Some(true));
}
