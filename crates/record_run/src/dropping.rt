//! The line of an event that is dropped.

ghost use Rattle.std.specs.Prelude.{◌≡◌, ◌+◌, ◌++◌, ◌≤◌, ◌<◌, ◌^◌, length};
ghost use Rattle.arrayvec.specs.ArrayString.{array_string_len};
ghost use Rattle.command_parts.specs.Printing.{line};
ghost use Rattle.record_run.specs.Lines.{cause_of, drop_text};

use arrayvec::ArrayString;
use avm_model::NotTaken;
use itoa::Buffer;

// the longest cause, and 20 digits
const LINE: usize = 64;

// Why an event is dropped, as its line names it.
fn cause(why: NotTaken) -> &'static str
    ensures text { result.now ≡ cause_of why }
    ensures short { length result.now ≤ 14 }
{
    match why {
        NotTaken::NotPacket => "notpacket",
        NotTaken::UnknownPeer => "unknownpeer",
        NotTaken::NotForUs => "notforus",
        NotTaken::NotAuthentic => "notauthentic",
        NotTaken::Repeated => "repeated",
        NotTaken::WrongNumber => "wrongnumber",
        NotTaken::NotOutstanding => "notoutstanding",
        NotTaken::NotAsked => "notasked",
        NotTaken::Halted => "halted",
        NotTaken::ClockPending => "clockpending",
        NotTaken::Full => "full",
    }
}

// Adds a text for which there is room.
fn push(line: &mut ArrayString<LINE>, text: &str)
    requires { length line.old.bytes + length text.now ≤ 64 }
    ensures { line.new.bytes ≡ line.old.bytes ++ text.now }
{
    let _ = line.try_push_str(text);
}

/// The line of an event that is dropped at a count. It takes no memory.
pub fn drop_line(why: NotTaken, count: u64) -> ArrayString<LINE>
    ensures { result.bytes ≡ line (drop_text (record { why = why; count = count })) }
{
    let mut digits = Buffer::new();
    let mut line = ArrayString::new();
    push(&mut line, "dropped ");
    push(&mut line, cause(why));
    push(&mut line, " ");
    push(&mut line, digits.format(count));
    push(&mut line, "\n");
    line
}
