//! The checker of bodies, call by call.
use std::alloc::{AllocError, Global};
use std::process::Abort;
use std::test::Fail;
use w_canon::Classes;
use w_decode::decode;
use w_rows::{TypeRow, TypeRows};
use w_rules::Context;
use w_steps::Setting;
use w_syntax::{
    BlockKind, Module, NumericOp, PackedInstr, ShortBlockType, ShortControlOp, ShortSwitchingOp,
};
use w_types::{PackedType, ValType};
use w_vplain::{Checker, Room};
use w_vswitch::switching;

// The types [] to [] and [i32] to [].
static MODULE: [u8; 18] = [
    0x00, 0x61, 0x73, 0x6D, 0x01, 0x00, 0x00, 0x00, 0x01, 0x08, 0x02, 0x60, 0x00, 0x00, 0x60, 0x01,
    0x7F, 0x00,
];

// The module, and the classes of its types.
#[derive(Drop)]
struct Bench {
    candidate: Module,
    classes: Classes,
}

impl Bench {
    fn new(alloc: Global) -> Result<Bench, Fail> {
        let candidate = decode(alloc, &MODULE)?;
        match Classes::of_groups(alloc, candidate.types.as_slice()) {
            Ok(classes) => Ok(Bench { candidate, classes }),
            Err(error) => {
                drop(candidate);
                Err(Fail::from(error))
            }
        }
    }

    // With nothing but these types.
    fn context(&self) -> Context<'_> {
        Context {
            types: &self.candidate.types,
            classes: &self.classes,
            functions: &[],
            tables: &[],
            memories: &[],
            globals: &[],
            tags: &[],
            elements: &[],
            datas: 0,
            declared: &[],
        }
    }
}

// The call for instructions that open or end no block.
fn plain(checker: &mut Checker<'_>, packed: PackedInstr) -> Result<bool, AllocError> {
    let answer = checker.plain(&packed);
    drop(packed);
    answer
}

// The call for those that open one.
fn enter(
    checker: &mut Checker<'_>,
    kind: BlockKind,
    block: ShortBlockType,
) -> Result<bool, AllocError> {
    let packed = PackedInstr::Block(kind, block, 0);
    let answer = checker.enter(&packed);
    drop(packed);
    answer
}

// The call for those that switch stacks.
fn switch_stacks(checker: &mut Checker<'_>) -> Result<bool, AllocError> {
    let packed = PackedInstr::Switching(ShortSwitchingOp::ContNew(0));
    let answer = switching(checker, &packed);
    drop(packed);
    answer
}

fn number(checker: &mut Checker<'_>, number: NumericOp) -> Result<bool, AllocError> {
    plain(checker, PackedInstr::numeric(number))
}

// Whether each of these calls is true: constants of i64, i32 and i64.
fn push_three(checker: &mut Checker<'_>) -> Result<bool, AllocError> {
    let long = NumericOp::I64Const(7);
    let short = NumericOp::I32Const(7);
    Ok(number(checker, long)? && number(checker, short)? && number(checker, long)?)
}

// A row takes two operands and gives none; with it go five more of a clause's label.
fn row_leaves_one(rt: &impl Abort, checker: &mut Checker<'_>) -> Result<(), Fail> {
    assert!(rt; push_three(checker)?);
    assert_eq!(rt; (checker.height(), checker.depth()), (3, 1));
    assert!(rt;
        checker.apply(
            TypeRow::bare(&[PackedType::I32]),
            Some(ValType::I64),
            TypeRow::bare(&[]),
            Some(5)
        )?
    );
    assert_eq!(rt; checker.height(), 6);
    assert!(rt; checker.end()?);
    Ok(())
}

// Behind a call that answers false, each one does.
fn all_false(checker: &mut Checker<'_>) -> Result<bool, AllocError> {
    Ok(
        !plain(checker, PackedInstr::Control(ShortControlOp::Nop))?
            && !enter(checker, BlockKind::Block, ShortBlockType::Empty)?
            && !checker.other()?
            && !checker.end()?
            && !switch_stacks(checker)?
            && !checker.apply(TypeRow::bare(&[]), None, TypeRow::bare(&[]), None)?,
    )
}

// An instruction in the call of another class has no place, and nothing has behind it.
fn plain_call_refuses_switching(rt: &impl Abort, checker: &mut Checker<'_>) -> Result<(), Fail> {
    assert!(rt;
        !plain(
            checker,
            PackedInstr::Switching(ShortSwitchingOp::ContNew(0))
        )?
    );
    assert!(rt; all_false(checker)?);
    Ok(())
}

// How many values a branch to the label takes, and whether the first is an i32; where there is such a label.
fn label_of(checker: &Checker<'_>, index: u32) -> Option<(usize, bool)> {
    let label = checker.label(index)?;
    let begins_with_i32 = match label.types.first() {
        Some(kind) => matches!(kind.whole(), ValType::I32),
        None => false,
    };
    Some((label.types.len(), begins_with_i32))
}

// Whether each of these calls is true: a constant of i32, a loop that takes it, and a block in that.
fn open_two(checker: &mut Checker<'_>) -> Result<bool, AllocError> {
    Ok(
        number(checker, NumericOp::I32Const(7))?
            && enter(checker, BlockKind::Loop, ShortBlockType::Index(1))?
            && enter(checker, BlockKind::Block, ShortBlockType::Empty)?,
    )
}

fn labels_are_known_with_their_size(
    rt: &impl Abort,
    checker: &mut Checker<'_>,
) -> Result<(), Fail> {
    assert!(rt; open_two(checker)?);
    assert_eq!(rt; label_of(checker, 0), Some((0, false)));
    assert_eq!(rt; label_of(checker, 1), Some((1, true)));
    assert_eq!(rt; label_of(checker, 2), Some((1, false)));
    assert_eq!(rt; label_of(checker, 3), None);
    assert_eq!(rt; checker.setting().cx.tables.len(), 0);
    Ok(())
}

// What is done with the checker of a body to [i64].
#[derive(Clone, Copy)]
enum Call {
    Row,
    OtherClass,
    Labels,
}

fn perform(alloc: Global, rt: &impl Abort, bench: &Bench, call: Call) -> Result<(), Fail> {
    let context = bench.context();
    let results = [PackedType::I64];
    let rows = TypeRows::none(alloc);
    let setting = Setting {
        cx: &context,
        rows: &rows,
        results: TypeRow::bare(&results),
    };
    let mut checker = Checker::begin(alloc, setting, Room::new(alloc), &[], &[])?;
    let result = match call {
        Call::Row => row_leaves_one(rt, &mut checker),
        Call::OtherClass => plain_call_refuses_switching(rt, &mut checker),
        Call::Labels => labels_are_known_with_their_size(rt, &mut checker),
    };
    drop(checker);
    drop(rows);
    result
}

fn perform_all(alloc: Global, rt: &impl Abort, bench: &Bench) -> Result<(), Fail> {
    perform(alloc, rt, bench, Call::Row)?;
    perform(alloc, rt, bench, Call::OtherClass)?;
    perform(alloc, rt, bench, Call::Labels)
}

#[test]
fn a_checker_answers_call_by_call(rt: HostRuntime) -> Result<(), Fail> {
    let bench = Bench::new(rt.alloc())?;
    let result = perform_all(rt.alloc(), &rt, &bench);
    drop(bench);
    result
}
