//! The functions that `ref.func` may name.
ghost use Rattle.std.specs.Prelude.{◌≡◌, [], ◌∷◌, IfOk, false, flat_map, replicate};
ghost use Rattle.w_syntax.specs.Items.{code_of};
ghost use Rattle.w_syntax.specs.declared.module.Elem.{Elem};
ghost use Rattle.w_syntax.specs.declared.module.Export.{Export};
ghost use Rattle.w_syntax.specs.declared.module.GlobalVariable.{GlobalVariable};
ghost use Rattle.w_syntax.specs.declared.module.Table.{Table};
ghost use Rattle.w_syntax.specs.Packed.{unpacked};
ghost use Rattle.w_rules.specs.Named.{named_at};
ghost use Rattle.w_rules.specs.Spaces.{marked, named_in, named_in_some, named_of, exported};

use std::alloc::{AllocError, Global};
use w_syntax::{
    Body, Elem, Export, ExternIndex, GlobalVariable, Instr, ItemView, Items, Module, Op,
    PackedInstr, ReferenceOp, Table,
};

// Marks a function.
#[tactic(auto, using(std::proofs::lemmas::List::set_past))]
fn mark(declared: &mut [bool], function: u32)
    ensures { declared.new ≡ marked declared.old (function ∷ []) }
{
    let place = function as usize;
    if place < declared.len() {
        declared[place] = true;
    }
}

// Marks the function that an instruction names.
fn mark_instr(declared: &mut [bool], instr: &Instr)
    ensures { declared.new ≡ marked declared.old (named_at instr.now) }
{
    if let Instr::Plain(Op::Reference(ReferenceOp::Func(function))) = instr {
        mark(declared, *function);
    }
}

// Marks the function that a packed instruction names.
fn mark_packed(declared: &mut [bool], packed: &PackedInstr)
    ensures { declared.new ≡ marked declared.old (named_at (unpacked packed.now)) }
{
    match packed {
        PackedInstr::Reference(ReferenceOp::Func(function)) => mark(declared, *function),
        PackedInstr::Boxed(instr) => mark_instr(declared, instr),
        _ => {}
    }
}

// Marks the functions that a body names.
fn mark_body(declared: &mut [bool], body: &Body)
    ensures { declared.new ≡ marked declared.old (named_in body.now) }
{
    let instrs = body.instrs();
    for instr in instrs {
        mark_packed(declared, instr);
    }
}

// Marks the function that is exported.
fn mark_export(declared: &mut [bool], export: &Export)
    ensures { declared.new ≡ marked declared.old (exported export.now.index) }
{
    if let ExternIndex::Func(function) = export.index {
        mark(declared, function);
    }
}

// Marks the functions that are exported.
fn mark_exports(declared: &mut [bool], exports: &[Export])
    ensures { declared.new ≡ marked declared.old (flat_map
        (λ (e : Export). exported e.index) exports.now) }
{
    for export in exports {
        mark_export(declared, export);
    }
}

// Marks the functions that an item names.
fn mark_item(declared: &mut [bool], item: ItemView<'_>)
    ensures { declared.new ≡ marked declared.old (named_in (code_of item.entry)) }
{
    match item {
        ItemView::Function(function) => mark(declared, function),
        ItemView::Null(_) => {}
        ItemView::Expression(body) => mark_body(declared, body),
    }
}

// Marks the functions that the items of an element name.
fn mark_items(declared: &mut [bool], items: &Items)
    ensures { declared.new ≡ marked declared.old (flat_map named_in items.now) }
{
    for place in 0..items.len() {
        mark_item(declared, items.at(place));
    }
}

// Marks the functions that the items of elements name.
fn mark_elements(declared: &mut [bool], elements: &[Elem])
    ensures { declared.new ≡ marked declared.old (flat_map
        (λ (e : Elem). flat_map named_in e.items) elements.now) }
{
    for element in elements {
        mark_items(declared, &element.items);
    }
}

// Marks the functions that what globals begin with names.
fn mark_globals(declared: &mut [bool], globals: &[GlobalVariable])
    ensures { declared.new ≡ marked declared.old (flat_map
        (λ (g : GlobalVariable). named_in g.init) globals.now) }
{
    for global in globals {
        mark_body(declared, &global.init);
    }
}

// Marks the functions that what a table begins with names.
fn mark_table(declared: &mut [bool], table: &Table)
    ensures { declared.new ≡ marked declared.old (named_in_some table.now.init) }
{
    if let Some(init) = &table.init {
        mark_body(declared, init);
    }
}

// Marks the functions that what tables begin with names.
fn mark_tables(declared: &mut [bool], tables: &[Table])
    ensures { declared.new ≡ marked declared.old (flat_map
        (λ (t : Table). named_in_some t.init) tables.now) }
{
    for table in tables {
        mark_table(declared, table);
    }
}

// Marks the functions that a module names outside of the bodies of functions.
fn mark_named(declared: &mut [bool], candidate: &Module)
    ensures { declared.new ≡ marked declared.old (named_of candidate.now) }
{
    mark_exports(declared, candidate.exports.as_slice());
    mark_elements(declared, candidate.elements.as_slice());
    mark_globals(declared, candidate.globals.as_slice());
    mark_tables(declared, candidate.tables.as_slice());
}

/// Of each of so many functions, whether `ref.func` may name it: those that are exported, and those that elements and the
/// expressions of globals and tables name (Core, validation, modules). It fails only when out of memory.
pub fn declared_functions(
    alloc: Global,
    candidate: &Module,
    count: usize,
) -> Result<Vec<bool>, AllocError>
    ensures { IfOk result (λ d. d.items ≡ marked (replicate count false) (named_of candidate.now)) }
{
    let mut declared = vec![in alloc; false; count]?;
    mark_named(&mut declared, candidate);
    Ok(declared)
}
