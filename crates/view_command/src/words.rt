// Lines as text.
ghost use Rattle.std.specs.Prelude.{◌≡◌, IfOk, string_bytes};
ghost use Rattle.view_command.specs.Lines.{hex_text as hex_text_of, hex_word as hex_word_of, head_line as head_line_of, status_word as status_word_of, register_line as register_line_of, word_line as word_line_of, change_line as change_line_of};

use guest_machine::{Machine, Status};
use std::alloc::{AllocError, Global};

// Bytes in lower-case hexadecimal digits.
fn hex_text(alloc: Global, bytes: &[u8]) -> Result<String, AllocError>
    ensures { IfOk result (λ t. string_bytes t ≡ hex_text_of bytes.now) }
{
    hex::encode(alloc, bytes)
}

// A number in eight digits.
#[tactic(auto, unfolding(avm_num::specs::Lists::be))]
fn hex_word(alloc: Global, value: u32) -> Result<String, AllocError>
    ensures { IfOk result (λ t. string_bytes t ≡ hex_word_of value) }
{
    hex_text(alloc, &value.to_be_bytes())
}

fn status_word(status: Status) -> &'static str
    ensures { result.now ≡ status_word_of status }
{
    match status {
        Status::Running => "running",
        Status::Waiting => "waiting",
        Status::Halted => "halted",
    }
}

/// The first line of a state.
pub fn head_line(alloc: Global, machine: &Machine) -> Result<String, AllocError>
    ensures { IfOk result (λ t. string_bytes t ≡ head_line_of machine.now.state) }
{
    let count = machine.count();
    let pc = hex_word(alloc, machine.hart().pc())?;
    let status = status_word(machine.status());
    format!(in alloc; "count {count} pc {pc} {status}\n")
}

/// The line of a register.
pub fn register_line(alloc: Global, number: u8, value: u32) -> Result<String, AllocError>
    ensures { IfOk result (λ t. string_bytes t ≡ register_line_of number value) }
{
    let value = hex_word(alloc, value)?;
    format!(in alloc; "x{number} {value}\n")
}

/// The line of a word of the RAM.
pub fn word_line(alloc: Global, address: u32, value: u32) -> Result<String, AllocError>
    ensures { IfOk result (λ t. string_bytes t ≡ word_line_of address value) }
{
    let address = hex_word(alloc, address)?;
    let value = hex_word(alloc, value)?;
    format!(in alloc; "{address} {value}\n")
}

/// The line of a change: the count behind the step, and the word before it and behind it.
pub fn change_line(alloc: Global, count: u64, old: u32, new: u32) -> Result<String, AllocError>
    ensures { IfOk result (λ t. string_bytes t ≡ change_line_of (record { count = count; old = old; new = new })) }
{
    let old = hex_word(alloc, old)?;
    let new = hex_word(alloc, new)?;
    format!(in alloc; "{count} {old} {new}\n")
}
