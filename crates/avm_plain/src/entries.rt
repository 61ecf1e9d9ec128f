//! The entries of a log, and when two are one.

ghost use Rattle.std.specs.Prelude.{◌≡◌, IfOk, IsTrue, ◌↔◌};
ghost use Rattle.avm_plain.specs.Step.{output_of};
ghost use Rattle.avm_plain.specs.Input.{input_of};
ghost use Rattle.avm_plain.specs.Replay.{given_of, made_of, entry_of};

use crate::state::Output;
use crate::taking::Input;
use std::alloc::{AllocError, Global};

/// An input, with the count at which it is applied.
#[derive(Drop)]
pub struct Given {
    pub count: u64,
    pub input: Input,
}

/// An output, with the count after its step.
#[derive(Drop)]
pub struct Made {
    pub count: u64,
    pub output: Output,
}

/// One entry of a log.
#[derive(Drop)]
pub enum Entry {
    Input(Given),
    Output(Made),
}

impl Given {
    /// The same input at the same count.
    pub fn copy(&self, alloc: Global) -> Result<Given, AllocError>
        ensures { IfOk result (λ g. given_of g ≡ given_of self.now) }
    {
        Ok(Given {
            count: self.count,
            input: self.input.copy(alloc)?,
        })
    }
}

fn same_input(a: &Input, b: &Input) -> bool
    ensures { IsTrue result ↔ (input_of a.now ≡ input_of b.now) }
{
    match (a, b) {
        (Input::Console(a), Input::Console(b)) => a.as_slice() == b.as_slice(),
        (Input::Clock(a), Input::Clock(b)) => *a == *b,
        (
            Input::Message {
                number: m,
                message: a,
            },
            Input::Message {
                number: n,
                message: b,
            },
        ) => *m == *n && a.peer == b.peer && a.payload.as_slice() == b.payload.as_slice(),
        (Input::Acked { peer: a, number: m }, Input::Acked { peer: b, number: n }) => *a == *b
            && *m == *n,
        _ => false,
    }
}

fn same_output(a: &Output, b: &Output) -> bool
    ensures { IsTrue result ↔ (output_of a.now ≡ output_of b.now) }
{
    match (a, b) {
        (Output::Out(a), Output::Out(b)) => a.as_slice() == b.as_slice(),
        (
            Output::Send {
                peer: p,
                number: m,
                payload: a,
            },
            Output::Send {
                peer: q,
                number: n,
                payload: b,
            },
        ) => *p == *q && *m == *n && a.as_slice() == b.as_slice(),
        (Output::Halt { cause: c, value: v }, Output::Halt { cause: d, value: w }) => *c == *d
            && *v == *w,
        (Output::Snap, Output::Snap) => true,
        _ => false,
    }
}

fn same_given(a: &Given, b: &Given) -> bool
    ensures { IsTrue result ↔ (given_of a.now ≡ given_of b.now) }
{
    a.count == b.count && same_input(&a.input, &b.input)
}

fn same_made(a: &Made, b: &Made) -> bool
    ensures { IsTrue result ↔ (made_of a.now ≡ made_of b.now) }
{
    a.count == b.count && same_output(&a.output, &b.output)
}

/// Whether two entries are one: the same kind, count and content.
pub fn same_entry(a: &Entry, b: &Entry) -> bool
    ensures { IsTrue result ↔ (entry_of a.now ≡ entry_of b.now) }
{
    match (a, b) {
        (Entry::Input(a), Entry::Input(b)) => same_given(a, b),
        (Entry::Output(a), Entry::Output(b)) => same_made(a, b),
        _ => false,
    }
}
