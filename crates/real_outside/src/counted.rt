// The count of faults that each object keeps.
ghost use Rattle.avm_outside.specs.Outside.{Rises};

use avm_outside::Failed;

// Counts a failed call.
pub fn counted(faults: &mut u64) -> Failed
    ensures { Rises faults.old faults.new }
{
    *faults = faults.saturating_add(1);
    Failed
}
