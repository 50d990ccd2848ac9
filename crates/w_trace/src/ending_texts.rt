//! The texts of traps and of limits of a run.
ghost use Rattle.std.specs.Prelude.{◌≡◌};
ghost use Rattle.w_trace.specs.Endings.{trap_name as the_trap_name, run_limit_text as the_run_limit_text};

use w_reduce::{RunLimit, Trap};

/// A trap's name, as the program writes it, without the index of a tag.
pub fn trap_name(trap: Trap) -> &'static str
    ensures { result.now ≡ the_trap_name trap }
{
    match trap {
        Trap::Unreachable => "trap unreachable",
        Trap::DivideByZero => "trap divide by zero",
        Trap::IntegerOverflow => "trap integer overflow",
        Trap::MemoryOutOfBounds => "trap memory out of bounds",
        Trap::TableOutOfBounds => "trap table out of bounds",
        Trap::UndefinedElement => "trap undefined element",
        Trap::NullElement => "trap null element",
        Trap::CallTypeMismatch => "trap call type mismatch",
        Trap::NullReference => "trap null reference",
        Trap::ConsumedContinuation => "trap consumed continuation",
        Trap::Unhandled(_) => "trap unhandled",
    }
}

/// A limit of a run, as the program writes it.
pub fn run_limit_text(name: RunLimit) -> &'static str
    ensures { result.now ≡ the_run_limit_text name }
{
    match name {
        RunLimit::Frames => "limit frames",
        RunLimit::Handles => "limit handles",
        RunLimit::Conts => "limit conts",
    }
}
