//! Laws of runs of linked files, each the contract of a function that does nothing.
ghost use Rattle.w_linker.specs.Laws.{LinkedConsumeOnce};

use w_linked::linked_starts_are_typed;
use w_reduce::plain_reductions_go_apart;

/// No address stands twice among those that the reductions of a run of valid files empty; they stay empty, and `consumed` is how many they
/// are.
pub fn linked_continuations_are_consumed_once()
    ensures { LinkedConsumeOnce }
{
    linked_starts_are_typed();
    plain_reductions_go_apart();
}
