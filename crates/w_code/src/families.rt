//! What kinds of common instructions opcodes begin, so that one look at the opcode finds its reader.

use Family::*;

/// What reads a common instruction.
#[derive(Clone, Copy)]
pub(crate) enum Family {
    Alone,
    Transfer,
    Variable,
    Memory,
    Constant,
    Relation,
    Arithmetic,
    Numeric,
    Other,
}

// By the opcode. What reads an instruction looks at the opcode itself, so that a wrong entry costs time alone.
static FAMILIES: [Family; 256] = [
    Alone, Alone, Other, Other, Other, Other, Other, Other, Other, Other, Other, Other, Transfer,
    Transfer, Other, Alone, Transfer, Other, Other, Other, Other, Other, Other, Other, Other,
    Other, Alone, Alone, Other, Other, Other, Other, Variable, Variable, Variable, Variable,
    Variable, Other, Other, Other, Memory, Memory, Other, Other, Memory, Memory, Memory, Memory,
    Memory, Memory, Memory, Memory, Memory, Memory, Memory, Memory, Other, Other, Memory, Memory,
    Memory, Memory, Memory, Memory, Memory, Constant, Constant, Other, Other, Numeric, Relation,
    Relation, Relation, Relation, Relation, Relation, Relation, Relation, Relation, Relation,
    Numeric, Relation, Relation, Relation, Relation, Relation, Relation, Relation, Relation,
    Relation, Relation, Other, Other, Other, Other, Other, Other, Other, Other, Other, Other,
    Other, Other, Arithmetic, Arithmetic, Arithmetic, Arithmetic, Arithmetic, Arithmetic,
    Arithmetic, Arithmetic, Arithmetic, Arithmetic, Arithmetic, Arithmetic, Arithmetic, Arithmetic,
    Arithmetic, Arithmetic, Arithmetic, Arithmetic, Arithmetic, Arithmetic, Arithmetic, Arithmetic,
    Arithmetic, Arithmetic, Arithmetic, Arithmetic, Arithmetic, Arithmetic, Arithmetic, Arithmetic,
    Arithmetic, Arithmetic, Arithmetic, Arithmetic, Arithmetic, Arithmetic, Other, Other, Other,
    Other, Other, Other, Other, Other, Other, Other, Other, Other, Other, Other, Other, Other,
    Other, Other, Other, Other, Other, Other, Other, Other, Other, Other, Other, Other, Numeric,
    Other, Other, Other, Other, Numeric, Numeric, Other, Other, Other, Other, Other, Other, Other,
    Other, Other, Other, Other, Other, Other, Other, Other, Other, Other, Other, Numeric, Numeric,
    Numeric, Numeric, Numeric, Other, Other, Other, Other, Other, Other, Other, Other, Other,
    Other, Other, Other, Other, Other, Other, Other, Other, Other, Other, Other, Other, Other,
    Other, Other, Other, Other, Other, Other, Other, Other, Other, Other, Other, Other, Other,
    Other, Other, Other, Other, Other, Other, Other, Other, Other, Other, Other, Other, Other,
    Other, Other, Other, Other, Other, Other, Other, Other, Other, Other, Other,
];

/// What reads the instruction that this opcode begins, if it is a common one.
#[inline(always)]
pub(crate) fn family_of(tag: u8) -> Family {
    FAMILIES[tag as usize]
}
