//! The names of instructions, in the order of their opcodes.
ghost use Rattle.std.specs.Prelude.{◌≡◌, ◌<◌, ℕ, IfSome, IfNone, None, Some, slice_get};
ghost use Rattle.w_lines.specs.Instructions.{rows, row_in};
ghost use Rattle.w_lines.specs.NameTable.{names_of, codes_of, kinds_of, IsRow};
ghost use Rattle.w_lines.specs.Spelling.{is_first, kinds};

use w_words::is;

/// What stands behind the name of an instruction.
#[derive(Clone, Copy)]
pub(crate) enum Immediates {
    None,
    Index,
    Indices,
    /// The exponent of the alignment, and the offset.
    Access,
    /// The type of a block.
    Block,
    Const32,
    Const64,
    Heap,
    Types,
    Labels,
    /// An index, and clauses of a handler.
    Clauses,
}

/// What the table says of a name. What stands behind FC counts from 0xFC00.
#[derive(Clone, Copy)]
pub(crate) struct NameRow {
    pub opcode: u16,
    pub immediates: Immediates,
}

// How many instructions there are.
const COUNT: usize = 137;

const NAMES: [&str; COUNT] = [
    "unreachable",
    "nop",
    "block",
    "loop",
    "if",
    "else",
    "end",
    "br",
    "br_if",
    "br_table",
    "return",
    "call",
    "call_indirect",
    "return_call",
    "return_call_indirect",
    "call_ref",
    "return_call_ref",
    "drop",
    "select",
    "select_t",
    "local.get",
    "local.set",
    "local.tee",
    "global.get",
    "global.set",
    "table.get",
    "table.set",
    "i32.load",
    "i64.load",
    "i32.load8_s",
    "i32.load8_u",
    "i32.load16_s",
    "i32.load16_u",
    "i64.load8_s",
    "i64.load8_u",
    "i64.load16_s",
    "i64.load16_u",
    "i64.load32_s",
    "i64.load32_u",
    "i32.store",
    "i64.store",
    "i32.store8",
    "i32.store16",
    "i64.store8",
    "i64.store16",
    "i64.store32",
    "memory.size",
    "memory.grow",
    "i32.const",
    "i64.const",
    "i32.eqz",
    "i32.eq",
    "i32.ne",
    "i32.lt_s",
    "i32.lt_u",
    "i32.gt_s",
    "i32.gt_u",
    "i32.le_s",
    "i32.le_u",
    "i32.ge_s",
    "i32.ge_u",
    "i64.eqz",
    "i64.eq",
    "i64.ne",
    "i64.lt_s",
    "i64.lt_u",
    "i64.gt_s",
    "i64.gt_u",
    "i64.le_s",
    "i64.le_u",
    "i64.ge_s",
    "i64.ge_u",
    "i32.clz",
    "i32.ctz",
    "i32.popcnt",
    "i32.add",
    "i32.sub",
    "i32.mul",
    "i32.div_s",
    "i32.div_u",
    "i32.rem_s",
    "i32.rem_u",
    "i32.and",
    "i32.or",
    "i32.xor",
    "i32.shl",
    "i32.shr_s",
    "i32.shr_u",
    "i32.rotl",
    "i32.rotr",
    "i64.clz",
    "i64.ctz",
    "i64.popcnt",
    "i64.add",
    "i64.sub",
    "i64.mul",
    "i64.div_s",
    "i64.div_u",
    "i64.rem_s",
    "i64.rem_u",
    "i64.and",
    "i64.or",
    "i64.xor",
    "i64.shl",
    "i64.shr_s",
    "i64.shr_u",
    "i64.rotl",
    "i64.rotr",
    "i32.wrap_i64",
    "i64.extend_i32_s",
    "i64.extend_i32_u",
    "i32.extend8_s",
    "i32.extend16_s",
    "i64.extend8_s",
    "i64.extend16_s",
    "i64.extend32_s",
    "ref.null",
    "ref.is_null",
    "ref.func",
    "ref.as_non_null",
    "br_on_null",
    "br_on_non_null",
    "cont.new",
    "cont.bind",
    "suspend",
    "resume",
    "switch",
    "memory.init",
    "data.drop",
    "memory.copy",
    "memory.fill",
    "table.init",
    "elem.drop",
    "table.copy",
    "table.grow",
    "table.size",
    "table.fill",
];

const OPCODES: [u16; COUNT] = [
    0x00, 0x01, 0x02, 0x03, 0x04, 0x05, 0x0B, 0x0C, 0x0D, 0x0E, 0x0F, 0x10, 0x11, 0x12, 0x13, 0x14,
    0x15, 0x1A, 0x1B, 0x1C, 0x20, 0x21, 0x22, 0x23, 0x24, 0x25, 0x26, 0x28, 0x29, 0x2C, 0x2D, 0x2E,
    0x2F, 0x30, 0x31, 0x32, 0x33, 0x34, 0x35, 0x36, 0x37, 0x3A, 0x3B, 0x3C, 0x3D, 0x3E, 0x3F, 0x40,
    0x41, 0x42, 0x45, 0x46, 0x47, 0x48, 0x49, 0x4A, 0x4B, 0x4C, 0x4D, 0x4E, 0x4F, 0x50, 0x51, 0x52,
    0x53, 0x54, 0x55, 0x56, 0x57, 0x58, 0x59, 0x5A, 0x67, 0x68, 0x69, 0x6A, 0x6B, 0x6C, 0x6D, 0x6E,
    0x6F, 0x70, 0x71, 0x72, 0x73, 0x74, 0x75, 0x76, 0x77, 0x78, 0x79, 0x7A, 0x7B, 0x7C, 0x7D, 0x7E,
    0x7F, 0x80, 0x81, 0x82, 0x83, 0x84, 0x85, 0x86, 0x87, 0x88, 0x89, 0x8A, 0xA7, 0xAC, 0xAD, 0xC0,
    0xC1, 0xC2, 0xC3, 0xC4, 0xD0, 0xD1, 0xD2, 0xD4, 0xD5, 0xD6, 0xE0, 0xE1, 0xE2, 0xE3, 0xE6,
    0xFC08, 0xFC09, 0xFC0A, 0xFC0B, 0xFC0C, 0xFC0D, 0xFC0E, 0xFC0F, 0xFC10, 0xFC11,
];

static IMMEDIATES: [Immediates; COUNT] = [
    Immediates::None,
    Immediates::None,
    Immediates::Block,
    Immediates::Block,
    Immediates::Block,
    Immediates::None,
    Immediates::None,
    Immediates::Index,
    Immediates::Index,
    Immediates::Labels,
    Immediates::None,
    Immediates::Index,
    Immediates::Indices,
    Immediates::Index,
    Immediates::Indices,
    Immediates::Index,
    Immediates::Index,
    Immediates::None,
    Immediates::None,
    Immediates::Types,
    Immediates::Index,
    Immediates::Index,
    Immediates::Index,
    Immediates::Index,
    Immediates::Index,
    Immediates::Index,
    Immediates::Index,
    Immediates::Access,
    Immediates::Access,
    Immediates::Access,
    Immediates::Access,
    Immediates::Access,
    Immediates::Access,
    Immediates::Access,
    Immediates::Access,
    Immediates::Access,
    Immediates::Access,
    Immediates::Access,
    Immediates::Access,
    Immediates::Access,
    Immediates::Access,
    Immediates::Access,
    Immediates::Access,
    Immediates::Access,
    Immediates::Access,
    Immediates::Access,
    Immediates::Index,
    Immediates::Index,
    Immediates::Const32,
    Immediates::Const64,
    Immediates::None,
    Immediates::None,
    Immediates::None,
    Immediates::None,
    Immediates::None,
    Immediates::None,
    Immediates::None,
    Immediates::None,
    Immediates::None,
    Immediates::None,
    Immediates::None,
    Immediates::None,
    Immediates::None,
    Immediates::None,
    Immediates::None,
    Immediates::None,
    Immediates::None,
    Immediates::None,
    Immediates::None,
    Immediates::None,
    Immediates::None,
    Immediates::None,
    Immediates::None,
    Immediates::None,
    Immediates::None,
    Immediates::None,
    Immediates::None,
    Immediates::None,
    Immediates::None,
    Immediates::None,
    Immediates::None,
    Immediates::None,
    Immediates::None,
    Immediates::None,
    Immediates::None,
    Immediates::None,
    Immediates::None,
    Immediates::None,
    Immediates::None,
    Immediates::None,
    Immediates::None,
    Immediates::None,
    Immediates::None,
    Immediates::None,
    Immediates::None,
    Immediates::None,
    Immediates::None,
    Immediates::None,
    Immediates::None,
    Immediates::None,
    Immediates::None,
    Immediates::None,
    Immediates::None,
    Immediates::None,
    Immediates::None,
    Immediates::None,
    Immediates::None,
    Immediates::None,
    Immediates::None,
    Immediates::None,
    Immediates::None,
    Immediates::None,
    Immediates::None,
    Immediates::None,
    Immediates::None,
    Immediates::None,
    Immediates::Heap,
    Immediates::None,
    Immediates::Index,
    Immediates::None,
    Immediates::Index,
    Immediates::Index,
    Immediates::Index,
    Immediates::Indices,
    Immediates::Index,
    Immediates::Clauses,
    Immediates::Indices,
    Immediates::Indices,
    Immediates::Index,
    Immediates::Indices,
    Immediates::Index,
    Immediates::Indices,
    Immediates::Index,
    Immediates::Indices,
    Immediates::Index,
    Immediates::Index,
    Immediates::Index,
];

// A factor by which the hashes of all names differ.
const FACTOR: u32 = 1_904_966_057;

// How many hashes there are.
const HASHES: usize = 512;

// The place of a name by its hash, where one has it. A wrong one costs time alone.
static PLACES: [u8; HASHES] = [
    0, 44, 0, 0, 0, 0, 0, 27, 0, 0, 0, 0, 59, 0, 0, 93, 0, 126, 0, 0, 0, 0, 0, 40, 103, 0, 0, 0, 0,
    0, 0, 0, 0, 0, 0, 115, 0, 52, 2, 12, 0, 48, 0, 0, 0, 0, 0, 0, 112, 0, 0, 116, 0, 0, 0, 0, 0, 0,
    0, 92, 0, 0, 0, 0, 0, 0, 0, 50, 0, 0, 7, 0, 38, 0, 0, 0, 73, 0, 0, 0, 0, 0, 0, 0, 0, 23, 0, 0,
    0, 0, 0, 0, 0, 67, 3, 0, 0, 0, 17, 0, 0, 0, 0, 0, 34, 0, 101, 0, 129, 0, 32, 75, 0, 0, 41, 39,
    0, 119, 0, 125, 85, 0, 0, 128, 0, 71, 95, 0, 0, 0, 37, 0, 0, 111, 120, 0, 105, 0, 0, 18, 0, 0,
    0, 0, 0, 0, 107, 0, 88, 130, 66, 0, 0, 0, 45, 0, 0, 0, 0, 0, 0, 0, 33, 0, 0, 0, 0, 0, 31, 0, 0,
    0, 0, 0, 135, 123, 0, 0, 28, 121, 13, 26, 11, 70, 0, 0, 0, 0, 0, 0, 108, 0, 83, 0, 104, 0, 0,
    0, 0, 0, 0, 0, 100, 0, 62, 0, 0, 0, 0, 114, 0, 0, 0, 0, 0, 0, 0, 0, 0, 0, 0, 0, 77, 0, 0, 0,
    97, 102, 87, 0, 0, 0, 0, 0, 0, 54, 0, 0, 42, 0, 0, 0, 0, 0, 0, 36, 0, 0, 0, 0, 43, 0, 0, 0, 0,
    0, 0, 0, 0, 0, 0, 0, 0, 134, 0, 0, 0, 58, 0, 99, 0, 0, 0, 0, 0, 21, 0, 0, 0, 0, 16, 0, 0, 0,
    96, 0, 86, 0, 0, 0, 51, 0, 4, 53, 0, 0, 0, 82, 0, 0, 94, 0, 0, 35, 0, 0, 0, 0, 0, 110, 5, 0, 0,
    0, 0, 0, 0, 15, 79, 106, 19, 131, 84, 0, 0, 57, 0, 98, 0, 0, 117, 0, 0, 0, 0, 0, 0, 0, 0, 0, 0,
    30, 14, 90, 0, 0, 0, 0, 22, 0, 0, 0, 113, 46, 0, 0, 0, 0, 0, 0, 0, 81, 0, 0, 0, 0, 24, 109, 0,
    0, 0, 0, 0, 0, 0, 122, 78, 0, 0, 6, 0, 0, 0, 0, 0, 0, 0, 0, 0, 1, 0, 0, 0, 0, 0, 0, 76, 0, 0,
    29, 0, 0, 0, 0, 0, 0, 65, 0, 0, 0, 118, 0, 25, 0, 0, 0, 0, 0, 0, 80, 0, 0, 0, 0, 10, 0, 0, 0,
    0, 9, 0, 0, 0, 56, 0, 74, 0, 0, 69, 72, 133, 0, 0, 47, 0, 0, 0, 0, 0, 8, 0, 0, 0, 0, 0, 0, 0,
    0, 0, 0, 0, 49, 0, 63, 64, 0, 60, 0, 0, 132, 0, 0, 0, 0, 0, 0, 0, 0, 0, 0, 0, 124, 136, 61, 0,
    0, 0, 89, 0, 0, 0, 55, 91, 0, 0, 0, 68, 0, 0, 0, 127, 0, 0, 0, 0, 0, 20, 0, 0, 0, 0, 0,
];

// The name at a place of the table.
fn name_at(place: usize) -> &'static str
    requires { place < 137 }
    ensures { slice_get (names_of rows) place ≡ Some result.now }
{
    NAMES[place]
}

// The opcode at a place of the table.
fn opcode_at(place: usize) -> u16
    requires { place < 137 }
    ensures { slice_get (codes_of rows) place ≡ Some result }
{
    OPCODES[place]
}

// What stands behind the name at a place of the table.
fn immediates_at(place: usize) -> Immediates
    requires { place < 137 }
    ensures { slice_get (kinds_of rows) place ≡ Some result }
{
    IMMEDIATES[place]
}

// The place where a name should be, if it is one.
fn sought_place(name: &[u8]) -> usize {
    let mut hash: u32 = 0;
    for byte in name {
        hash = hash.wrapping_add(u32::from(*byte)).wrapping_mul(FACTOR);
    }
    usize::from(PLACES[(hash >> 23) as usize])
}

// Whether a word begins a line that is no instruction.
fn is_kind(word: &[u8]) -> bool
    ensures { result ≡ is_first kinds word.now }
{
    is(word, "module")
        || is(word, "rec")
        || is(word, "func")
        || is(word, "cont")
        || is(word, "final")
        || is(word, "open")
        || is(word, "import")
        || is(word, "table")
        || is(word, "memory")
        || is(word, "tag")
        || is(word, "global")
        || is(word, "export")
        || is(word, "start")
        || is(word, "elem")
        || is(word, "data")
        || is(word, "function")
        || is(word, "local")
}

// The place of a name in the table. Where it isn't at the one where it should be, and begins no line of another kind, all are looked at.
#[tactic(auto, using(crate::proofs::Lookups::no_kind_is_named))]
fn place_of(name: &[u8]) -> Option<usize>
    ensures some { IfSome result (λ place. (place < 137) × (slice_get (names_of rows) place ≡ Some name.now)) }
    ensures none { IfNone result ((place : ℕ) → slice_get (names_of rows) place ≡ Some name.now → ⊥) }
{
    let place = sought_place(name);
    if place < COUNT && name == name_at(place).as_bytes() {
        return Some(place);
    }
    if is_kind(name) {
        return None;
    }
    for place in 0..COUNT {
        if name == name_at(place).as_bytes() {
            return Some(place);
        }
    }
    None
}

/// What the table says of the instruction of this name.
#[tactic(auto, using(crate::proofs::Lookups::is_row, crate::proofs::Lookups::no_row))]
pub(crate) fn row_of(name: &[u8]) -> Option<NameRow>
    ensures some { IfSome result (IsRow name.now) }
    ensures none { IfNone result (row_in rows name.now ≡ None) }
{
    let place = place_of(name)?;
    Some(NameRow {
        opcode: opcode_at(place),
        immediates: immediates_at(place),
    })
}
