//! Finding the instruction at a place.
ghost use Rattle.std.specs.Prelude.{◌≡◌, option_map};
ghost use Rattle.w_syntax.specs.Packed.{unpacked};
ghost use Rattle.w_stands.specs.Code.{instr_of};

use w_syntax::{Module, PackedInstr};

/// The instruction at a place of a function's code, or `None` behind the last one.
#[inline(always)]
pub fn instr_at(program: &Module, function: u32, place: u32) -> Option<&PackedInstr>
    ensures is { option_map (λ p. unpacked p.now) result ≡ instr_of program.now function place }
{
    match program.codes.as_slice().get(function as usize) {
        Some(code) => code.body.instrs().get(place as usize),
        None => None,
    }
}
