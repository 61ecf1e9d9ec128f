// The last line of a recording. It takes no memory, so that none is missed once the script is recorded.
ghost use Rattle.std.specs.Prelude.{◌≡◌, ◌+◌, ◌++◌, ◌≤◌, length, codes};
ghost use Rattle.std.specs.Fmt.{decimal};
ghost use Rattle.arrayvec.specs.ArrayString.{array_string_len};
ghost use Rattle.command_parts.specs.Printing.{line as line_of};
ghost use Rattle.record_command.specs.Ends.{state_text, summary_text, text_of};

use crate::{End, FileOption, Summary};
use arrayvec::ArrayString;
use avm_model::Status;
use itoa::Buffer;

// more than the summary with three numbers of 20 digits
const LINE: usize = 128;

// Adds a text for which there is room.
fn push(line: &mut ArrayString<LINE>, text: &str)
    requires { length line.old.bytes + length text.now ≤ 128 }
    ensures { line.new.bytes ≡ line.old.bytes ++ text.now }
{
    let _ = line.try_push_str(text);
}

// Adds a number for which there is room.
fn push_number(line: &mut ArrayString<LINE>, number: u64)
    requires { length line.old.bytes + 20 ≤ 128 }
    ensures text { line.new.bytes ≡ line.old.bytes ++ decimal number }
    ensures short { length line.new.bytes ≤ length line.old.bytes + 20 }
{
    let mut digits = Buffer::new();
    push(line, digits.format(number));
}

// Whether a machine runs, in a word.
fn state_word(state: Status) -> &'static str
    ensures text { result.now ≡ state_text state }
    ensures short { length result.now ≤ 7 }
{
    match state {
        Status::Running => "running",
        Status::Waiting => "waiting",
        Status::Halted => "halted",
    }
}

fn summary_line(summary: Summary) -> ArrayString<LINE>
    ensures { result.bytes ≡ line_of (summary_text summary) }
{
    let mut line = ArrayString::new();
    push(&mut line, "recorded entries ");
    push_number(&mut line, summary.entries);
    push(&mut line, " dropped ");
    push_number(&mut line, summary.dropped);
    push(&mut line, " leaves ");
    push_number(&mut line, summary.leaves);
    push(&mut line, " ");
    push(&mut line, state_word(summary.state));
    push(&mut line, "\n");
    line
}

// A text that a number ends.
fn number_line(text: &str, number: u64) -> ArrayString<LINE>
    requires { length text.now ≤ 64 }
    ensures { result.bytes ≡ line_of (text.now ++ decimal number) }
{
    let mut line = ArrayString::new();
    push(&mut line, text);
    push_number(&mut line, number);
    push(&mut line, "\n");
    line
}

fn text_line(text: &str) -> ArrayString<LINE>
    requires { length text.now ≤ 64 }
    ensures { result.bytes ≡ line_of text.now }
{
    let mut line = ArrayString::new();
    push(&mut line, text);
    push(&mut line, "\n");
    line
}

/// The line of an end, with its byte 10.
pub fn line_of_end(end: End) -> ArrayString<LINE>
    ensures { result.bytes ≡ line_of (text_of end) }
{
    match end {
        End::Recorded(summary) => summary_line(summary),
        End::RefusedFile(FileOption::Key) => text_line("refused file --key"),
        End::RefusedFile(FileOption::Script) => text_line("refused file --script"),
        End::RefusedNoStore => text_line("refused nostore"),
        End::RefusedDamaged(place) => number_line("refused damaged ", place),
        End::RefusedRetired => text_line("refused retired"),
        End::RefusedKey => text_line("refused key"),
        End::RefusedJournal(number) => number_line("refused journal ", number),
        End::RefusedLeaves => text_line("refused leaves"),
        End::RefusedFull => text_line("refused full"),
    }
}
