//! Types that stand only where a test holds.
ghost use Rattle.std.specs.Prelude.{◌≡◌, IfOk, List};
ghost use Rattle.w_canon.specs.declared.entry.Entry.{Entry};
ghost use Rattle.lists.specs.Rows.{ε, ◌▹◌, row_of};
ghost use Rattle.w_flow.specs.Flow.{step};
ghost use Rattle.w_flow.specs.View.{flow_view, flow_if, HasWords};
ghost use Rattle.w_rules.specs.InstructionTypes.{fixed, if_valid};

use std::alloc::AllocError;
use w_canon::Classes;
use w_flow::Flow;
use w_types::PackedType;

/// Takes and gives operands of these types, where the test holds.
pub(crate) fn fixed_if_valid(
    classes: &Classes,
    flow: &mut Flow,
    test: bool,
    ins: &[PackedType],
    outs: &[PackedType],
) -> Result<bool, AllocError>
    ensures steps { IfOk result (λ applies. step classes.now (if_valid test (fixed (row_of ins.now)
        (row_of outs.now))) (flow_view flow.old).any (flow_view flow.old).operands
        ≡ flow_if applies flow.new) }
    ensures words { HasWords classes.now flow.old → HasWords classes.now flow.new }
{
    if !test {
        return Ok(false);
    }
    flow.turns_few(classes, ins, outs)
}

/// Gives an operand of this type, where the test holds.
pub(crate) fn gives_if_valid(
    classes: &Classes,
    flow: &mut Flow,
    test: bool,
    kind: PackedType,
) -> Result<bool, AllocError>
    ensures steps { IfOk result (λ applies. step classes.now (if_valid test (fixed ε (ε ▹ kind)))
        (flow_view flow.old).any (flow_view flow.old).operands ≡ flow_if applies flow.new) }
    ensures words { HasWords classes.now flow.old → HasWords classes.now flow.new }
{
    if !test {
        return Ok(false);
    }
    flow.gives(classes, kind)
}

/// Takes an operand and gives one of these types, where the test holds.
pub(crate) fn turns_if_valid(
    classes: &Classes,
    flow: &mut Flow,
    test: bool,
    from: PackedType,
    to: PackedType,
) -> Result<bool, AllocError>
    ensures steps { IfOk result (λ applies. step classes.now (if_valid test (fixed (ε ▹ from) (ε ▹ to)))
        (flow_view flow.old).any (flow_view flow.old).operands ≡ flow_if applies flow.new) }
    ensures words { HasWords classes.now flow.old → HasWords classes.now flow.new }
{
    if !test {
        return Ok(false);
    }
    flow.turns(classes, from, to)
}

/// Takes two operands of these types, where the test holds.
pub(crate) fn takes_two_if_valid(
    classes: &Classes,
    flow: &mut Flow,
    test: bool,
    below: PackedType,
    top: PackedType,
) -> bool
    ensures steps { step classes.now (if_valid test (fixed (ε ▹ below ▹ top) ε))
        (flow_view flow.old).any (flow_view flow.old).operands ≡ flow_if result flow.new }
    ensures words { HasWords classes.now flow.old → HasWords classes.now flow.new }
{
    if !test {
        return false;
    }
    flow.takes_two(classes, below, top)
}
