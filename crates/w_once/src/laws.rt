//! Laws of the definitions, each the contract of a function that does nothing.
ghost use Rattle.w_once.specs.Consumptions.{ConsumedTraps, IsConsumedOnce};

use w_reduce::plain_reductions_go_apart;
use w_typed::starts_are_typed;

/// No address stands twice among those that the reductions of a run of a sound module empty; they stay empty, and `consumed` is how many they
/// are.
pub fn continuations_are_consumed_once()
    ensures { IsConsumedOnce }
{
    starts_are_typed();
    plain_reductions_go_apart();
}

/// A `cont.bind`, `resume` or `switch` of a consumed continuation traps as such.
pub fn consumed_continuations_trap()
    ensures { ConsumedTraps }
{}
