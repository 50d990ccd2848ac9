//! Bodies.
ghost use Rattle.std.specs.Prelude.{◌≡◌};
ghost use Rattle.w_syntax.specs.FlatData.{instr_of_data, some_of_data};
ghost use Rattle.w_syntax.specs.Module.{any_uses_data};
ghost use Rattle.w_syntax.specs.Packed.{unpacked, unpacked_all};

use crate::instructions::{Instr, Op};
use crate::memory_instructions::MemoryOp;
use crate::module::Func;
use crate::packed::{PackedInstr, ShortMemoryOp};
use std::marker::Model;

/// A sequence of instructions. They are kept in one list, packed, and contracts see the tree.
#[derive(Drop)]
pub struct Body {
    code: Vec<PackedInstr>,
    // whether some instruction names a data segment: looked at while the list is new
    names_data: bool,
}

// Whether an instruction names a data segment.
fn is_of_data(instr: &Instr) -> bool
    ensures { result ≡ instr_of_data instr.now }
{
    match instr {
        Instr::Plain(Op::Memory(MemoryOp::Init(_, _))) => true,
        Instr::Plain(Op::Memory(MemoryOp::DataDrop(_))) => true,
        _ => false,
    }
}

// Whether a packed one does.
fn is_packed_of_data(packed: &PackedInstr) -> bool
    ensures { result ≡ instr_of_data (unpacked packed.now) }
{
    match packed {
        PackedInstr::Memory(ShortMemoryOp::Init(_, _)) => true,
        PackedInstr::Memory(ShortMemoryOp::DataDrop(_)) => true,
        PackedInstr::Boxed(instr) => is_of_data(instr),
        _ => false,
    }
}

// Whether some instruction of the list names a data segment.
fn some_is_of_data(instrs: &[PackedInstr]) -> bool
    ensures { result ≡ some_of_data (unpacked_all instrs.now) }
{
    for instr in instrs {
        if is_packed_of_data(instr) {
            return true;
        }
    }
    false
}

impl Model for Body {
    ghost use Rattle.std.specs.Prelude.{◌≡◌};
    ghost use Rattle.w_syntax.specs.Code.{Code};
    ghost use Rattle.w_syntax.specs.FlatLaws.{code_code};
    ghost use Rattle.w_syntax.specs.Flat.{tree_of, IsFlat};
    ghost use Rattle.w_syntax.specs.FlatData.{some_of_data};
    ghost use Rattle.w_syntax.specs.Packed.{unpacked_all};

    ghost Value = { Code };

    ghost coded = { code_code };

    ghost view = { λ a. tree_of (unpacked_all a.code.items) };

    ghost invariant = { λ a. IsFlat (unpacked_all a.code.items) × (a.names_data ≡ some_of_data (unpacked_all a.code.items)) };
}

impl Body {
    ghost use Rattle.std.specs.Prelude.{◌≡◌, option_map};
    ghost use Rattle.w_syntax.specs.declared.instructions.Instr.TheVariants as flat;
    ghost use Rattle.w_syntax.specs.Flat.{only, tree_of, IsFlat, whole};
    ghost use Rattle.w_syntax.specs.DataUses.{uses_data};
    ghost use Rattle.w_syntax.specs.Packed.{unpacked, unpacked_all};

    /// The body that this list is laid out from.
    pub fn new(code: Vec<PackedInstr>) -> Body
        requires { IsFlat (unpacked_all code.items) }
        ensures { result ≡ tree_of (unpacked_all code.items) }
    {
        let names_data = some_is_of_data(code.as_slice());
        Body { code, names_data }
    }

    /// Whether some instruction names a data segment.
    pub fn uses_data(&self) -> bool
        ensures { result ≡ uses_data self.now }
    {
        self.names_data
    }

    /// The instructions in one list, with the end behind them.
    pub fn instrs(&self) -> &[PackedInstr]
        ensures { unpacked_all result.now ≡ whole self.now }
    {
        self.code.as_slice()
    }

    /// The list itself, with the end behind the instructions: `new` makes a body of one that is laid out alike.
    pub fn into_instrs(self) -> Vec<PackedInstr>
        ensures { unpacked_all result.items ≡ whole self }
    {
        self.code
    }

    /// The instruction, where the body is one alone that holds no others.
    pub fn only(&self) -> Option<&PackedInstr>
        ensures { option_map (λ p. unpacked p.now) result ≡ option_map (λ o. flat.Plain o) (only self.now) }
    {
        let instrs = self.instrs();
        if instrs.len() != 2 {
            return None;
        }
        Some(&instrs[0])
    }
}

/// Whether the body of some function names a data segment.
pub fn any_uses_data(functions: &[Func]) -> bool
    ensures { result ≡ any_uses_data functions.now }
{
    for function in functions {
        if function.body.uses_data() {
            return true;
        }
    }
    false
}
