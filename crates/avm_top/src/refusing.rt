// Words that no command is done for.
ghost use Rattle.std.specs.Prelude.{◌≡◌, ◌∷◌, [], codes};
ghost use Rattle.command_parts.specs.Printing.{line, Printed};

use avm_outside::Sink;
use command_parts::print_last;

/// The words are no job.
pub fn refuse_words<S: Sink>(out: &mut S) -> u8
    ensures { Printed (line (codes "refused words") ∷ []) 3 (S.faults out.old) (S.faults out.new) (S.written out.old) (S.written out.new) result }
{
    print_last(out, b"refused words\n", 3)
}

/// The job isn't built yet.
pub fn refuse_unbuilt<S: Sink>(out: &mut S) -> u8
    ensures { Printed (line (codes "refused notbuilt") ∷ []) 2 (S.faults out.old) (S.faults out.new) (S.written out.old) (S.written out.new) result }
{
    print_last(out, b"refused notbuilt\n", 2)
}
