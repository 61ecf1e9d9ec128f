// The machine that boots.
ghost use Rattle.std.specs.Prelude.{◌≡◌, false, IfOk, MatchOption};
ghost use Rattle.avm_model.specs.Bell.{bell_of};
ghost use Rattle.avm_model.specs.Device.{fresh_with};
ghost use Rattle.avm_script.specs.ConfigView.{config_view};
ghost use Rattle.format_command.specs.Booting.{IsNoImage, IsReady};
ghost use Rattle.format_command.specs.Booted.{IsBootOf};

use avm_hash::Digest;
use avm_num::NoMemory;
use avm_script::Config;
use guest_dev::Devices;
use guest_machine::Machine;
use page_tree::Tree;
use rv32_loader::load;
use rv32_mem::Ram;
use std::alloc::Global;

const IMAGE: usize = 1 << 25;

/// A machine that hasn't made a step, and the root of its pages.
#[derive(Drop)]
pub struct Boot {
    pub machine: Machine,
    pub pages: Digest,
}

// The devices of a configuration.
fn devices_of(alloc: Global, config: Config) -> Result<Devices, NoMemory>
    requires ready { IsReady (config_view config) }
    ensures { IfOk result (λ d. d ≡ record { state = fresh_with (bell_of config.machine) config.own config.peers.items; returns = false }) }
{
    if config.machine == 2 {
        return Devices::with_bell(alloc, config.own, config.peers);
    }
    Devices::new(alloc, config.own, config.peers)
}

/// The machine of a configuration with an image in its RAM; None where the bytes are no image that fits.
pub fn boot_machine(alloc: Global, config: Config, image: &[u8]) -> Result<Option<Boot>, NoMemory>
    requires ready { IsReady (config_view config) }
    ensures { IfOk result (λ b. MatchOption b (IsNoImage (config_view config) image.now) (IsBootOf (config_view config) image.now)) }
{
    if image.len() > IMAGE {
        return Ok(None);
    }
    let mut ram = Ram::new(alloc, config.pages)?;
    let Ok(entry) = load(&mut ram, image) else {
        return Ok(None);
    };
    let tree = Tree::build(alloc, &mut ram)?;
    let _bytes = ram.bytes();
    let snap = config.snap;
    let devices = devices_of(alloc, config)?;
    let machine = Machine::new(devices, ram, snap, entry);
    Ok(Some(Boot {
        machine,
        pages: tree.root(),
    }))
}
