// A state, printed.
ghost use Rattle.std.specs.Prelude.{◌≡◌, ◌∷◌, [], ◌*◌, ◌+◌, ◌^◌, ◌≤◌, ◌<◌};
ghost use Rattle.avm_model.specs.Hart.{reg};
ghost use Rattle.command_parts.specs.Printing.{PrintsAll};
ghost use Rattle.view_command.specs.Lines.{head_line as head_line_of, register_lines_at, register_lines, word_lines, word_lines_at, state_lines};
ghost use Rattle.view_model.specs.Views.{word_at as word_at_of};

use crate::words::{head_line, register_line, word_line};
use avm_outside::Sink;
use command_parts::{Fault, print_line};
use guest_machine::Machine;
use std::alloc::Global;

/// Prints the first line of a state.
fn print_head<S: Sink>(alloc: Global, machine: &Machine, out: &mut S) -> Result<(), Fault>
    ensures { PrintsAll (head_line_of machine.now.state ∷ []) result (S.faults out.old) (S.faults out.new) (S.written out.old) (S.written out.new) }
{
    let line = head_line(alloc, machine)?;
    print_line(out, line.as_bytes())
}

/// Prints the line of a register, unless that is 0.
fn print_register<S: Sink>(
    alloc: Global,
    machine: &Machine,
    number: u8,
    out: &mut S,
) -> Result<(), Fault>
    requires { number < 32 }
    ensures { PrintsAll (register_lines_at number (reg machine.now.state.hart number)) result (S.faults out.old) (S.faults out.new) (S.written out.old) (S.written out.new) }
{
    let value = machine.hart().read(number);
    if value == 0 {
        return Ok(());
    }
    let line = register_line(alloc, number, value)?;
    print_line(out, line.as_bytes())
}

/// Prints the registers that aren't 0.
fn print_registers<S: Sink>(alloc: Global, machine: &Machine, out: &mut S) -> Result<(), Fault>
    ensures { PrintsAll (register_lines machine.now.state.hart 0 32) result (S.faults out.old) (S.faults out.new) (S.written out.old) (S.written out.new) }
{
    for number in 0..32 {
        if let Err(fault) = print_register(alloc, machine, number, out) {
            return Err(fault);
        }
    }
    Ok(())
}

/// Prints the line of a word of the RAM, where there is one.
fn print_word<S: Sink>(
    alloc: Global,
    machine: &Machine,
    address: u32,
    out: &mut S,
) -> Result<(), Fault>
    ensures { PrintsAll (word_lines_at address (word_at_of address machine.now.state)) result (S.faults out.old) (S.faults out.new) (S.written out.old) (S.written out.new) }
{
    match machine.ram().load(address, 4) {
        Some(value) => {
            let line = word_line(alloc, address, value)?;
            print_line(out, line.as_bytes())
        }
        None => Ok(()),
    }
}

/// Prints words of the RAM from an address on.
fn print_words<S: Sink>(
    alloc: Global,
    machine: &Machine,
    from: u32,
    words: u32,
    out: &mut S,
) -> Result<(), Fault>
    requires { from + 4 * words ≤ 2 ^ 32 }
    ensures { PrintsAll (word_lines machine.now.state from words) result (S.faults out.old) (S.faults out.new) (S.written out.old) (S.written out.new) }
{
    for i in 0..words {
        if let Err(fault) = print_word(alloc, machine, from + 4 * i, out) {
            return Err(fault);
        }
    }
    Ok(())
}

/// Prints the lines of a state, with words of its RAM from an address on.
pub fn print_state<S: Sink>(
    alloc: Global,
    machine: &Machine,
    from: u32,
    words: u32,
    out: &mut S,
) -> Result<(), Fault>
    requires { from + 4 * words ≤ 2 ^ 32 }
    ensures { PrintsAll (state_lines machine.now.state from words) result (S.faults out.old) (S.faults out.new) (S.written out.old) (S.written out.new) }
{
    if let Err(fault) = print_head(alloc, machine, out) {
        return Err(fault);
    }
    if let Err(fault) = print_registers(alloc, machine, out) {
        return Err(fault);
    }
    print_words(alloc, machine, from, words, out)
}
