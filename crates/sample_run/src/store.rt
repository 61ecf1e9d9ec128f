//! The new store of the first node.

ghost use Rattle.std.specs.Prelude.{◌≡◌, length, IfOk};
ghost use Rattle.avm_model.specs.Keys.{FitsKey, HasTypes};
ghost use Rattle.lms_signer.specs.Views.{key_data};
ghost use Rattle.sample_model.specs.Start.{config_text};
ghost use Rattle.sample_run.specs.Stores.{AreInputs, IsStoreOf, inputs};

use avm_num::{NoMemory, Room};
use avm_outside::{MemDisk, MemFiles, MemSink};
use format_command::format;
use lms_signer::{KeyFile, put_key};
use std::alloc::Global;

/// The configuration in front of the peer's key, and behind it.
const CONFIG_FRONT: &[u8] =
    b"{\"own\":0,\"pages\":256,\"snap\":1048576,\"peers\":[{\"id\":1,\"key\":\"";

const CONFIG_END: &[u8] = b"\"}]}";

/// Does nothing. Its clause says what the type says.
fn is_id(bytes: &[u8; 16])
    ensures { length bytes.now ≡ 16 }
{}

/// Does nothing. Its clause says what the type says.
fn is_seed(bytes: &[u8; 32])
    ensures { length bytes.now ≡ 32 }
{}

/// Does nothing. Its clause says what the types say.
fn is_key(key: &KeyFile)
    requires { HasTypes (key_data key.now) }
    ensures { FitsKey (key_data key.now) }
{
    is_id(&key.id);
    is_seed(&key.seed.0);
}

/// The configuration with the peer's key.
fn configuration(alloc: Global, key: &[u8; 56]) -> Result<Vec<u8>, NoMemory>
    ensures { IfOk result (λ v. v.items ≡ config_text key.now) }
{
    let Ok(digits) = hex::encode(alloc, key) else {
        return Err(NoMemory);
    };
    let Ok(mut text) = Vec::from_slice(alloc, CONFIG_FRONT) else {
        return Err(NoMemory);
    };
    let Ok(()) = text.extend_from_slice(digits.as_bytes()) else {
        return Err(NoMemory);
    };
    match text.extend_from_slice(CONFIG_END) {
        Ok(()) => Ok(text),
        Err(_) => Err(NoMemory),
    }
}

/// Files of a private key, of the configuration with the peer's key, and of an image.
#[tactic(auto, unfolding(avm_num::specs::Room::left))]
fn input_files(
    alloc: Global,
    key: &KeyFile,
    peer: &[u8; 56],
    image: &[u8],
) -> Result<MemFiles, NoMemory>
    ensures { IfOk result (λ m. AreInputs (inputs (key_data key.now) peer.now image.now) m) }
{
    let mut private = Room::new(alloc, 61)?;
    put_key(&mut private, key);
    let config = configuration(alloc, peer)?;
    let mut files = MemFiles::new(alloc, Vec::new(alloc))?;
    files.put("key", private.bytes())?;
    files.put("config", &config)?;
    files.put("image", image)?;
    Ok(files)
}

/// The disk of the new store that formatting makes of these files.
pub fn new_store(
    alloc: Global,
    key: &KeyFile,
    peer: &[u8; 56],
    image: &[u8],
) -> Result<MemDisk, NoMemory>
    requires { HasTypes (key_data key.now) }
    ensures { IfOk result (λ d. IsStoreOf (inputs (key_data key.now) peer.now image.now) (key_data key.now) d) }
{
    is_key(key);
    let mut files = input_files(alloc, key, peer, image)?;
    let mut disk = MemDisk::new(alloc, Vec::new(alloc))?;
    let mut out = MemSink::new(alloc, Vec::new(alloc))?;
    match format(
        alloc, &mut files, "key", "config", "image", &mut disk, &mut out,
    ) {
        0 => Ok(disk),
        _ => Err(NoMemory),
    }
}
