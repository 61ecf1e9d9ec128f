// What is compared with an image, once a segment's head has come.
ghost use Rattle.std.specs.Prelude.{◌≡◌, ◌↔◌, ◌*◌, ◌&&◌, ◌++◌, ℕ, List, Some, None, IfOk, IsTrue, length, take, drop, is_some};
ghost use Rattle.std.specs.Option.{option_map};
ghost use Rattle.avm_model.specs.Basics.{or_else};
ghost use Rattle.avm_model.specs.Segment.{page_count};
ghost use Rattle.boot_stream.specs.Booting.{BootsAs, IsSame, is_boot};

use avm_num::{NoMemory, View};
use boot_image::is_booted;
use guest_machine::Machine;
use rv32_loader::load;
use rv32_mem::Ram;
use snap_state::{machine_of, read_head};
use std::alloc::Global;

const BOOT: u8 = 1;

/// The machine that boots from the image under the segment's head, where there is one; whether the pages that came are its RAM's;
/// and the kind of the first entry.
#[derive(Drop)]
pub struct Compared {
    pub machine: Option<Machine>,
    pub same: bool,
    pub first: Option<u8>,
}

/// The page count that a head says.
fn pages_in(head: &[u8]) -> Option<u32>
    ensures { result ≡ option_map (λ p. p.0) (page_count head.now) }
{
    if head.len() < 6 {
        return None;
    }
    let mut number = View::new(&head[6..]);
    number.take_u32()
}

/// The machine that boots from the image under this head; none where no pages make it one.
fn booting(alloc: Global, head: &[u8], image: &[u8]) -> Result<Option<Machine>, NoMemory>
    ensures { IfOk result (λ o. BootsAs o image.now head.now) }
{
    if !read_head(head) {
        return Ok(None);
    }
    let Some(pages) = pages_in(head) else {
        return Ok(None);
    };
    let mut ram = Ram::new(alloc, pages)?;
    match load(&mut ram, image) {
        Ok(entry) => {
            let machine = machine_of(alloc, head, ram)?;
            if is_booted(&machine, machine.ram().bytes(), entry) {
                Ok(Some(machine))
            } else {
                Ok(None)
            }
        }
        Err(_) => Ok(None),
    }
}

/// What is compared once this head has come.
pub fn compared_of(alloc: Global, head: &[u8], image: &[u8]) -> Result<Compared, NoMemory>
    ensures boots { IfOk result (λ k. BootsAs k.machine image.now head.now) }
    ensures same { IfOk result (λ k. k.same ≡ is_some k.machine) }
    ensures first { IfOk result (λ k. k.first ≡ None) }
{
    let machine = booting(alloc, head, image)?;
    let same = machine.is_some();
    Ok(Compared {
        machine,
        same,
        first: None,
    })
}

/// Whether page i of a RAM is this one.
fn has_page(ram: &Ram, i: u32, page: &[u8; 4096]) -> bool
    ensures { IsTrue result ↔ (take 4096 (drop (4096 * i) ram.now.bytes) ≡ page.now) }
{
    i < ram.pages() && ram.is_page(i, page)
}

impl Compared {
    /// One page more.
    pub fn page(&mut self, i: u32, page: &[u8; 4096])
        ensures machine { self.new.machine ≡ self.old.machine }
        ensures first { self.new.first ≡ self.old.first }
        ensures same { (pages : List ℕ) → length pages ≡ 4096 * i → IsSame self.old.machine self.old.same pages → IsSame self.old.machine self.new.same (pages ++ page.now) }
    {
        if let Some(machine) = &self.machine {
            if !has_page(machine.ram(), i, page) {
                self.same = false;
            }
        }
    }

    /// One entry more.
    pub fn entry(&mut self, kind: u8)
        ensures { self.new ≡ record self.old { first = or_else self.old.first (Some kind) } }
    {
        if self.first.is_none() {
            self.first = Some(kind);
        }
    }

    /// Whether all that came is as the image has it.
    pub fn begins(&self) -> bool
        ensures { result ≡ (self.now.same && is_boot self.now.first) }
    {
        self.same && self.first == Some(BOOT)
    }
}
