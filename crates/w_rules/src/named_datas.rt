//! How many data segments a body names.
ghost use Rattle.std.specs.Prelude.{◌≡◌, ◌+◌};
ghost use Rattle.w_syntax.specs.Packed.{unpacked};
ghost use Rattle.w_rules.specs.DataNeeds.{instr_needs, needs};

use w_syntax::{Body, Instr, MemoryOp, Op, PackedInstr, ShortMemoryOp};

// So many data segments are there where this one is the last.
fn past(segment: u32) -> usize
    ensures { result ≡ segment + 1 }
{
    segment as usize + 1
}

// How many data segments an instruction needs.
fn of_instr(instr: &Instr) -> usize
    ensures { result ≡ instr_needs instr.now }
{
    match instr {
        Instr::Plain(Op::Memory(MemoryOp::Init(segment, _) | MemoryOp::DataDrop(segment))) => {
            past(*segment)
        }
        _ => 0,
    }
}

// How many data segments a packed instruction needs.
fn of_packed(packed: &PackedInstr) -> usize
    ensures { result ≡ instr_needs (unpacked packed.now) }
{
    match packed {
        PackedInstr::Memory(ShortMemoryOp::Init(segment, _) | ShortMemoryOp::DataDrop(segment)) => {
            past(*segment)
        }
        PackedInstr::Boxed(instr) => of_instr(instr),
        _ => 0,
    }
}

/// How many data segments there must be so that a body has those that it names: one more than the greatest index, 0 where it
/// names none.
pub fn data_needs(body: &Body) -> usize
    ensures { result ≡ needs body.now }
{
    if !body.uses_data() {
        return 0;
    }
    let mut most = 0;
    for packed in body.instrs() {
        most = most.max(of_packed(packed));
    }
    most
}
