//! Operands that are taken and given, the topmost last.
ghost use Rattle.std.specs.Prelude.{◌≡◌, ◌≤◌, ◌<◌, ◌-◌, List, length, take, Bool, if◌then◌else◌, IfOk, IfSome, Some, None};
ghost use Rattle.std.specs.Option.{option_map};
ghost use Rattle.lists.specs.Rows.{ε, ◌▹◌, ◌⧺◌, row_of};
ghost use Rattle.w_canon.specs.declared.entry.Entry.{Entry};
ghost use Rattle.w_rules.specs.Matching.{known};
ghost use Rattle.w_rules.specs.Operands.{Known, Bottom};
ghost use Rattle.w_rules.specs.Typing.{ref_to};
ghost use Rattle.w_flow.specs.Flow.{operand_test, pops, pop, pop_ref, select_of, step};
ghost use Rattle.w_rules.specs.InstructionTypes.{fixed};
ghost use Rattle.w_rows.specs.Operands.{type_of, row_in, IsWorded, AreWorded};
ghost use Rattle.w_rows.specs.TypeRows.{AreReady, IsReady};
ghost use Rattle.w_flow.specs.View.{with_rest, with_type};

use crate::operand_list::OperandList;
use std::alloc::AllocError;
use w_canon::Classes;
use w_rows::{Operand, OperandView, RowWords, TypeRow, WIDE, operands_fit};
use w_types::{HeapType, PackedType, RefType, ValType};

// Whether an operand that is not just of this type stands where one of the type is wanted.
#[inline(never)]
fn matches_unlike(classes: &Classes, operand: Operand, wanted: PackedType) -> bool
    ensures { result ≡ operand_test classes.now (type_of operand) wanted }
{
    match operand.view() {
        OperandView::Known(kind) => classes.matches_val(kind, wanted),
        OperandView::Bottom => true,
        OperandView::BottomRef(nullable) => match wanted.whole() {
            ValType::Ref(wanted) => !nullable || wanted.nullable,
            ValType::I32 | ValType::I64 => false,
        },
    }
}

/// Whether an operand stands where one of this type is wanted.
#[tactic(auto, using(crate::proofs::SameTypes::known_matches))]
#[inline(always)]
pub(crate) fn matches_type(classes: &Classes, operand: Operand, wanted: PackedType) -> bool
    ensures { result ≡ operand_test classes.now (type_of operand) wanted }
{
    if operand.is(wanted) {
        return true;
    }
    matches_unlike(classes, operand, wanted)
}

// How many operands are left when these types are taken one by one, or `None` where they can't be. It compares no more types than
// there are operands.
#[inline(always)]
fn left_by_each(
    classes: &Classes,
    any: bool,
    operands: &[Operand],
    wanted: &[PackedType],
) -> Option<usize>
    ensures what { pops classes.now any (row_in operands.now) (row_of wanted.now)
        ≡ option_map (λ n. row_in (take n operands.now)) result }
    ensures within { IfSome result (λ n. n ≤ length operands.now) }
{
    let mut i = wanted.len();
    let mut n = operands.len();
    while i > 0 {
        if n == 0 {
            return if any { Some(0) } else { None };
        }
        i -= 1;
        n -= 1;
        if !matches_type(classes, operands[n], wanted[i]) {
            return None;
        }
    }
    Some(n)
}

// How many operands are left when these types are taken, or `None` where they can't be, if that shows at once. Where the place cannot be
// reached there may be fewer operands than types, and those are compared too.
#[tactic(auto, using(w_rows::proofs::ReadyRows::ready_wanted, w_rows::proofs::ReadyRows::ready_lengths))]
fn left_at_once(
    classes: &Classes,
    any: bool,
    operands: &[Operand],
    types: &[PackedType],
    words: RowWords,
) -> Option<Option<usize>>
    requires worded { AreWorded classes.now operands.now }
    requires ready { AreReady classes.now types.now words.operands.now words.given.now words.wanted.now words.lengths.now }
    ensures what { IfSome result (λ left. pops classes.now any (row_in operands.now) (row_of types.now)
        ≡ option_map (λ n. row_in (take n operands.now)) left) }
    ensures within { IfSome result (λ left. IfSome left (λ n. n ≤ length operands.now)) }
{
    let common = operands.len().min(types.len());
    let beneath = operands.len() - common;
    let made_up = types.len() - common;
    let given = &operands[beneath..];
    let wanted = &words.wanted[made_up..];
    let lengths = &words.lengths[made_up..];
    if common < WIDE || !operands_fit(given, wanted, lengths) {
        return None;
    }
    if made_up == 0 || any {
        Some(Some(beneath))
    } else {
        Some(None)
    }
}

/// How many operands are left when these types are taken, or `None` where they can't be.
pub(crate) fn left(
    classes: &Classes,
    any: bool,
    operands: &[Operand],
    wanted: TypeRow,
) -> Option<usize>
    requires worded { AreWorded classes.now operands.now }
    requires ready { IsReady classes.now wanted }
    ensures what { pops classes.now any (row_in operands.now) (row_of wanted.entry.types.now)
        ≡ option_map (λ n. row_in (take n operands.now)) result }
    ensures within { IfSome result (λ n. n ≤ length operands.now) }
{
    if let Some(words) = wanted.words {
        if let Some(left) = left_at_once(classes, any, operands, wanted.types, words) {
            return left;
        }
    }
    left_by_each(classes, any, operands, wanted.types)
}

/// Takes these types, which are few, or answers false.
#[tactic(auto, using(w_rows::proofs::WordedOperands::worded_taken))]
pub(crate) fn take_few(
    classes: &Classes,
    any: bool,
    operands: &mut OperandList,
    wanted: &[PackedType],
) -> bool
    ensures left { pops classes.now any (row_in operands.old) (row_of wanted.now)
        ≡ (if result then Some (row_in operands.new) else None) }
    ensures worded { AreWorded classes.now operands.old → AreWorded classes.now operands.new }
{
    match left_by_each(classes, any, operands.as_slice(), wanted) {
        Some(n) => {
            operands.truncate(n);
            true
        }
        None => false,
    }
}

/// Takes these types, which may be many, or answers false.
#[tactic(auto, using(w_rows::proofs::WordedOperands::worded_taken))]
pub(crate) fn take_many(
    classes: &Classes,
    any: bool,
    operands: &mut OperandList,
    wanted: TypeRow,
) -> bool
    requires worded { AreWorded classes.now operands.old }
    requires ready { IsReady classes.now wanted }
    ensures left { pops classes.now any (row_in operands.old) (row_of wanted.entry.types.now)
        ≡ (if result then Some (row_in operands.new) else None) }
    ensures worded { AreWorded classes.now operands.new }
{
    match left(classes, any, operands.as_slice(), wanted) {
        Some(n) => {
            operands.truncate(n);
            true
        }
        None => false,
    }
}

/// Takes an operand of this type, or answers false.
#[tactic(auto, using(w_rows::proofs::WordedOperands::row_pushed, w_rows::proofs::WordedOperands::worded_taken))]
#[inline(always)]
pub(crate) fn take_type(
    classes: &Classes,
    any: bool,
    operands: &mut OperandList,
    wanted: PackedType,
) -> bool
    ensures left { pops classes.now any (row_in operands.old) (ε ▹ wanted)
        ≡ (if result then Some (row_in operands.new) else None) }
    ensures worded { AreWorded classes.now operands.old → AreWorded classes.now operands.new }
{
    match operands.pop() {
        Some(operand) => matches_type(classes, operand, wanted),
        None => any,
    }
}

/// Takes an operand, whatever it is.
#[tactic(auto, using(w_rows::proofs::WordedOperands::row_pushed, w_rows::proofs::WordedOperands::worded_taken))]
#[inline(always)]
pub(crate) fn take_any(any: bool, operands: &mut OperandList) -> Option<Operand>
    ensures popped { pop any (row_in operands.old) ≡ with_type (row_in operands.new) result }
    ensures rest { operands.new ≡ take (length operands.old - 1) operands.old }
{
    match operands.pop() {
        Some(operand) => Some(operand),
        None if any => Some(Operand::BOTTOM),
        None => None,
    }
}

/// Takes a reference, and gives its heap type, `None` inside where that is bottom.
pub(crate) fn take_reference(any: bool, operands: &mut OperandList) -> Option<Option<HeapType>>
    ensures popped { pop_ref any (row_in operands.old) ≡ with_rest (row_in operands.new) result }
    ensures rest { operands.new ≡ take (length operands.old - 1) operands.old }
{
    match take_any(any, operands)?.view() {
        OperandView::Bottom | OperandView::BottomRef(_) => Some(None),
        OperandView::Known(kind) => match kind.whole() {
            ValType::Ref(kind) => Some(Some(kind.heap)),
            ValType::I32 | ValType::I64 => None,
        },
    }
}

/// A reference to this heap type that is not null.
pub(crate) fn non_null(classes: &Classes, heap: Option<HeapType>) -> Operand
    ensures kind { type_of result ≡ ref_to Bool.false heap }
    ensures worded { IsWorded classes.now result }
{
    match heap {
        Some(heap) => Operand::known(classes, PackedType::reference(RefType::non_null(heap))),
        None => Operand::bottom_ref(false),
    }
}

// The type of a number that a select takes beside one of any type.
fn selected_alone(kind: PackedType) -> Option<PackedType>
    ensures alone { option_map Known result ≡ select_of Bottom (Known kind) }
    ensures below { option_map Known result ≡ select_of (Known kind) Bottom }
{
    match kind.whole() {
        ValType::I32 | ValType::I64 => Some(kind),
        ValType::Ref(_) => None,
    }
}

// The type of two numbers that a select takes.
fn selected_both(one: PackedType, other: PackedType) -> Option<PackedType>
    ensures { option_map Known result ≡ select_of (Known one) (Known other) }
{
    match (one.whole(), other.whole()) {
        (ValType::I32, ValType::I32) | (ValType::I64, ValType::I64) => Some(one),
        _ => None,
    }
}

/// The one type of the two numbers that a select takes.
pub(crate) fn selected(one: Operand, other: Operand) -> Option<Operand>
    ensures kind { option_map type_of result ≡ select_of (type_of one) (type_of other) }
    ensures worded { (es : List Entry) → IfSome result (IsWorded es) }
{
    match one.view() {
        OperandView::Bottom => match other.view() {
            OperandView::Bottom => Some(Operand::BOTTOM),
            OperandView::Known(kind) => Some(Operand::alone(selected_alone(kind)?)),
            OperandView::BottomRef(_) => None,
        },
        OperandView::Known(one) => match other.view() {
            OperandView::Bottom => Some(Operand::alone(selected_alone(one)?)),
            OperandView::Known(other) => Some(Operand::alone(selected_both(one, other)?)),
            OperandView::BottomRef(_) => None,
        },
        OperandView::BottomRef(_) => None,
    }
}

/// Gives operands of these types, one by one.
#[tactic(auto, using(w_rows::proofs::WordedOperands::worded_pushed))]
pub(crate) fn give_each(
    classes: &Classes,
    operands: &mut OperandList,
    types: &[PackedType],
) -> Result<(), AllocError>
    ensures given { IfOk result (λ _. row_in operands.new
        ≡ row_in operands.old ⧺ known (row_of types.now)) }
    ensures worded { AreWorded classes.now operands.old → AreWorded classes.now operands.new }
{
    for kind in types {
        operands.push(Operand::known(classes, *kind))?;
    }
    Ok(())
}

/// Gives operands of these types behind the first so many, in the place of those that stand there.
#[tactic(auto, using(w_rows::proofs::WordedOperands::worded_behind, w_rows::proofs::WordedOperands::worded_none, w_rows::proofs::WordedOperands::worded_taken, crate::proofs::FittingRows::ready_row, w_rows::proofs::ReadyRows::ready_words))]
pub(crate) fn give_behind(
    classes: &Classes,
    operands: &mut OperandList,
    from: usize,
    types: TypeRow,
) -> Result<(), AllocError>
    requires within { from ≤ length operands.old }
    requires ready { IsReady classes.now types }
    ensures given { IfOk result (λ _. row_in operands.new
        ≡ row_in (take from operands.old) ⧺ known (row_of types.entry.types.now)) }
    ensures worded { AreWorded classes.now operands.old → AreWorded classes.now operands.new }
{
    match types.words {
        Some(words) => {
            operands.give_behind(from, words.operands)?;
            Ok(())
        }
        None => {
            operands.truncate(from);
            give_each(classes, operands, types.types)
        }
    }
}

/// Gives operands of these types.
pub(crate) fn give_types(
    classes: &Classes,
    operands: &mut OperandList,
    types: TypeRow,
) -> Result<(), AllocError>
    requires { IsReady classes.now types }
    ensures given { IfOk result (λ _. row_in operands.new
        ≡ row_in operands.old ⧺ known (row_of types.entry.types.now)) }
    ensures worded { AreWorded classes.now operands.old → AreWorded classes.now operands.new }
{
    let from = operands.len();
    give_behind(classes, operands, from, types)
}

/// Takes these types, and gives those, in the place of what was taken; or answers false. Both may be many.
pub(crate) fn turn_types(
    classes: &Classes,
    any: bool,
    operands: &mut OperandList,
    wanted: TypeRow,
    given: TypeRow,
) -> Result<bool, AllocError>
    requires worded { AreWorded classes.now operands.old }
    requires wanted { IsReady classes.now wanted }
    requires given { IsReady classes.now given }
    ensures steps { IfOk result (λ applies. step classes.now (fixed (row_of wanted.entry.types.now)
        (row_of given.entry.types.now)) any (row_in operands.old)
        ≡ (if applies then Some (record { any = any; operands = row_in operands.new }) else None)) }
    ensures worded { AreWorded classes.now operands.new }
{
    let Some(n) = left(classes, any, operands.as_slice(), wanted) else {
        return Ok(false);
    };
    give_behind(classes, operands, n, given)?;
    Ok(true)
}
