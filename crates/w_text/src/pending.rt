//! The item that is open, and what comes of its lines.
ghost use Rattle.std.specs.Prelude.{◌≡◌, ◌++◌, ◌∷◌, [], IfOk};
ghost use Rattle.w_lines.specs.declared.line.Line.TheVariants as line;
ghost use Rattle.w_syntax.specs.Builds.{Builds};
ghost use Rattle.w_syntax.specs.Code.{Code, Done};
ghost use Rattle.w_syntax.specs.Expr.{Path, Top, step as token_step};
ghost use Rattle.w_text.specs.Items.{ElemHead};
ghost use Rattle.w_text.specs.Machine.{Open as TheOpen, Opens, InExprs, exprs_on, expr_on, begin, in_group, in_locals, next};
ghost use Rattle.w_text.specs.Standing.{mode_of, place_of, head_of, left_of, exprs_of, NextIs, IsNoExpression, IsOpen};

use crate::item::Item;
use crate::runs::Runs;
use lists::ListOf;
use std::alloc::{AllocError, Global};
use w_lines::{Line, Mode};
use w_syntax::{
    Body, BodyBuilder, Data, DataMode, Elem, ElemMode, Func, GlobalType, GlobalVariable,
    Item as ElementItem, Items, Locals, Progress, Table, TableType, Token,
};
use w_types::{RecGroup, RefType, SubType};

/// What an expression that is open belongs to, with what came of it.
#[derive(Drop)]
pub(crate) enum Pending {
    Table(TableType),
    Global(GlobalType),
    /// The place in this memory of a data segment.
    Data(u32, ListOf<u8>),
    /// The body of a function.
    Function(u32, Locals),
    /// The place in this table of an element segment, which so many items follow.
    Place(u32, RefType, u64),
    /// An element segment of so many items, with how many are still to come behind the one that is open.
    Items(ElemMode, RefType, u64, u64, Vec<ElementItem>),
}

/// What of an item has come.
#[derive(Drop)]
pub(crate) enum Open {
    Between,
    /// A group: so many types and one more are still to come.
    Group(u64, Vec<SubType>),
    /// A function, by the index of its type, and its locals so far.
    Locals(u32, Runs),
    Expression(Pending, BodyBuilder),
}

/// What came of a line.
#[derive(Drop)]
pub(crate) enum Outcome {
    Opens(Open),
    Gives(Item),
    Refuses,
}

// An expression begins.
fn opens(alloc: Global, pending: Pending) -> Result<Outcome, AllocError>
    ensures { IfOk result (NextIs (Opens (InExprs (head_of pending) (left_of pending) (exprs_of pending) Top Done))) }
{
    let builder = BodyBuilder::new(alloc)?;
    Ok(Outcome::Opens(Open::Expression(pending, builder)))
}

// So many items of an element segment are still to come.
#[tactic(auto, using(crate::proofs::Segments::given, crate::proofs::Segments::more))]
fn items_on(
    alloc: Global,
    mode: ElemMode,
    kind: RefType,
    count: u64,
    left: u64,
    items: Vec<ElementItem>,
) -> Result<Outcome, AllocError>
    ensures { IfOk result (NextIs (exprs_on (ElemHead (mode_of mode) kind count) left (place_of mode ++ items.items))) }
{
    if left == 0 {
        let items = Items::of_items(ListOf::from_vec(items));
        return Ok(Outcome::Gives(Item::Elements(Elem { kind, items, mode })));
    }
    opens(alloc, Pending::Items(mode, kind, count, left - 1, items))
}

// An item more of an element segment.
fn with_item(
    alloc: Global,
    mode: ElemMode,
    kind: RefType,
    count: u64,
    left: u64,
    items: Vec<ElementItem>,
    body: Body,
) -> Result<Outcome, AllocError>
    ensures { IfOk result (NextIs (exprs_on (ElemHead (mode_of mode) kind count) left ((place_of mode ++ items.items) ++ body ∷ []))) }
{
    let mut items = items;
    let item = ElementItem::expression(alloc, body)?;
    items.push(item)?;
    items_on(alloc, mode, kind, count, left, items)
}

/// What comes of an expression that is finished. It fails only for want of memory.
pub(crate) fn finished(alloc: Global, pending: Pending, body: Body) -> Result<Outcome, AllocError>
    ensures { IfOk result (NextIs (exprs_on (head_of pending) (left_of pending) (exprs_of pending ++ body ∷ []))) }
{
    match pending {
        Pending::Table(kind) => {
            let init = Some(body);
            Ok(Outcome::Gives(Item::TableItem(Table { kind, init })))
        }
        Pending::Global(kind) => Ok(Outcome::Gives(Item::Global(GlobalVariable {
            kind,
            init: body,
        }))),
        Pending::Data(memory, bytes) => {
            let mode = DataMode::Active(memory, body);
            Ok(Outcome::Gives(Item::Bytes(Data { bytes, mode })))
        }
        Pending::Function(kind, locals) => {
            Ok(Outcome::Gives(Item::Function(kind, Func { locals, body })))
        }
        Pending::Place(table, kind, count) => {
            let mode = ElemMode::Active(table, body);
            items_on(alloc, mode, kind, count, count, Vec::new(alloc))
        }
        Pending::Items(mode, kind, count, left, items) => {
            with_item(alloc, mode, kind, count, left, items, body)
        }
    }
}

// A token, where an expression is open.
fn token_on(
    alloc: Global,
    pending: Pending,
    builder: BodyBuilder,
    token: Token,
) -> Result<Outcome, AllocError>
    requires { (p : Path) × (c : Code) × Builds p c builder }
    ensures { IfOk result (λ r. (p : Path) (c : Code) → Builds p c builder → NextIs (expr_on (head_of pending) (left_of pending) (exprs_of pending) (token_step p c token)) r) }
{
    let mut builder = builder;
    match builder.push(token)? {
        Progress::More => Ok(Outcome::Opens(Open::Expression(pending, builder))),
        Progress::Wrong => Ok(Outcome::Refuses),
        Progress::Finished => {
            let body = builder.into_body()?;
            finished(alloc, pending, body)
        }
    }
}

// A segment begins.
fn begin_elements(
    alloc: Global,
    mode: Mode,
    kind: RefType,
    count: u64,
) -> Result<Outcome, AllocError>
    ensures { IfOk result (NextIs (begin (line.Elements mode kind count))) }
{
    match mode {
        Mode::Active(table) => opens(alloc, Pending::Place(table, kind, count)),
        Mode::Passive => items_on(
            alloc,
            ElemMode::Passive,
            kind,
            count,
            count,
            Vec::new(alloc),
        ),
        Mode::Declarative => {
            items_on(
                alloc,
                ElemMode::Declarative,
                kind,
                count,
                count,
                Vec::new(alloc),
            )
        }
    }
}

// A group of one type.
fn group_of_one(alloc: Global, kind: SubType) -> Result<Outcome, AllocError>
    ensures { IfOk result (NextIs (begin (line.Type kind))) }
{
    let mut types = ListOf::new(alloc);
    types.push(kind)?;
    Ok(Outcome::Gives(Item::Group(RecGroup { types })))
}

// A group of so many types begins.
fn begin_group(alloc: Global, count: u64) -> Outcome
    ensures { NextIs (begin (line.Group count)) result }
{
    match count {
        0 => Outcome::Gives(Item::Group(RecGroup {
            types: ListOf::new(alloc),
        })),
        1 => Outcome::Refuses,
        _ => Outcome::Opens(Open::Group(count - 1, Vec::new(alloc))),
    }
}

// A line where no item is open.
fn begin(alloc: Global, line: Line) -> Result<Outcome, AllocError>
    ensures { IfOk result (NextIs (begin line)) }
{
    match line {
        Line::Group(count) => Ok(begin_group(alloc, count)),
        Line::Type(kind) => group_of_one(alloc, kind),
        Line::Import(import) => Ok(Outcome::Gives(Item::Imported(import))),
        Line::Table(kind, true) => opens(alloc, Pending::Table(kind)),
        Line::Table(kind, false) => Ok(Outcome::Gives(Item::TableItem(Table { kind, init: None }))),
        Line::Memory(limits) => Ok(Outcome::Gives(Item::Memory(limits))),
        Line::Tag(tag) => Ok(Outcome::Gives(Item::TagItem(tag))),
        Line::Global(kind) => opens(alloc, Pending::Global(kind)),
        Line::Export(export) => Ok(Outcome::Gives(Item::Exported(export))),
        Line::Start(function) => Ok(Outcome::Gives(Item::Start(function))),
        Line::Elements(mode, kind, count) => begin_elements(alloc, mode, kind, count),
        Line::Data(Some(memory), bytes) => opens(alloc, Pending::Data(memory, bytes)),
        Line::Data(None, bytes) => Ok(Outcome::Gives(Item::Bytes(Data {
            bytes,
            mode: DataMode::Passive,
        }))),
        Line::Function(kind) => Ok(Outcome::Opens(Open::Locals(kind, Runs::new(alloc)))),
        Line::Module | Line::Local(_) | Line::Token(_) => Ok(Outcome::Refuses),
    }
}

// A type of a group, of which so many and this one are still to come.
fn type_on(left: u64, types: Vec<SubType>, kind: SubType) -> Result<Outcome, AllocError>
    ensures { IfOk result (NextIs (in_group left types.items (line.Type kind))) }
{
    let mut types = types;
    types.push(kind)?;
    if left == 0 {
        return Ok(Outcome::Gives(Item::Group(RecGroup {
            types: ListOf::from_vec(types),
        })));
    }
    Ok(Outcome::Opens(Open::Group(left - 1, types)))
}

// A line where a group is open.
fn in_group(left: u64, types: Vec<SubType>, line: Line) -> Result<Outcome, AllocError>
    ensures { IfOk result (NextIs (in_group left types.items line)) }
{
    match line {
        Line::Type(kind) => type_on(left, types, kind),
        _ => Ok(Outcome::Refuses),
    }
}

// The body of a function begins.
fn begin_body(alloc: Global, kind: u32, runs: Runs, token: Token) -> Result<Outcome, AllocError>
    ensures { IfOk result (NextIs (in_locals kind runs (line.Token token))) }
{
    let locals = runs.into_locals(alloc)?;
    let builder = BodyBuilder::new(alloc)?;
    token_on(alloc, Pending::Function(kind, locals), builder, token)
}

// A line where a function's locals may come.
fn in_locals(alloc: Global, kind: u32, runs: Runs, line: Line) -> Result<Outcome, AllocError>
    ensures { IfOk result (NextIs (in_locals kind runs line)) }
{
    let mut runs = runs;
    match line {
        Line::Local(run) => {
            if runs.push(run)? {
                Ok(Outcome::Opens(Open::Locals(kind, runs)))
            } else {
                Ok(Outcome::Refuses)
            }
        }
        Line::Token(token) => begin_body(alloc, kind, runs, token),
        _ => Ok(Outcome::Refuses),
    }
}

/// What comes of a line where this is open, and no expression. It fails only for want of memory.
pub(crate) fn next(alloc: Global, opened: Open, line: Line) -> Result<Outcome, AllocError>
    requires { IsNoExpression opened }
    ensures { IfOk result (λ r. (o : TheOpen) → IsOpen o opened → NextIs (next o line) r) }
{
    match opened {
        Open::Between => begin(alloc, line),
        Open::Group(left, types) => in_group(left, types, line),
        Open::Locals(kind, runs) => in_locals(alloc, kind, runs, line),
        Open::Expression(_, _) => unreachable!(),
    }
}
