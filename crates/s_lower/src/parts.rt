//! The parts of the module.
ghost use Rattle.std.specs.Prelude.{◌≡◌, ◌≤◌, ◌∷◌, ◌++◌, [], codes, length, map, sum_by, IfOk, OnOk};
ghost use Rattle.s_index.specs.Indices.{function_type_index, handler_type_index, effect_type_index};
ghost use Rattle.s_index.specs.Numbers.{function_index};
ghost use Rattle.s_syntax.specs.declared.script.Declaration.{Declaration as TheDeclaration};
ghost use Rattle.s_check.specs.Size.{definition_size, size_limit};
ghost use Rattle.s_index.specs.Handled.{handled};
ghost use Rattle.w_syntax.specs.Types.{alone_of};
ghost use Rattle.s_code.specs.Lowered.{function_type_of, handler_type_of, slots_table, table_of, tag_of, group_tag, function_code_of, handler_code_of, for_each, group, pair_first, grouped, printer_import, main_export, declared};

use crate::code::{function_code, handler_code};
use lists::ListOf;
use s_index::{GROUP_TAG, PRINTER, Program, RESUMPTION, effect_type, function_type, handler_type};
use s_syntax::{Declaration, Definition, Name as DeclaredName, Number, Parameter, Slots};
use std::alloc::{AllocError, Global};
use w_syntax::{
    Elem, ElemMode, Export, ExternIndex, ExternType, Func, Import, Items, Limits, Name, Table,
    TableType, Tag,
};
use w_types::{CompType, HeapType, RecGroup, RecGroups, RefType, SubType};

// Puts this type, final and without supertypes, in a group of its own behind the others.
fn push_group(alloc: Global, ty: CompType, groups: &mut Vec<RecGroup>) -> Result<(), AllocError>
    ensures value { OnOk result (groups.new.items ≡ groups.old.items ++ group ty ∷ []) }
{
    let mut types = ListOf::new(alloc);
    types.push(SubType::alone(alloc, ty))?;
    groups.push(RecGroup { types })?;
    Ok(())
}

// Puts each of these types in a group of its own behind the others.
fn push_groups(
    alloc: Global,
    types: Vec<CompType>,
    groups: &mut Vec<RecGroup>,
) -> Result<(), AllocError>
    ensures value { OnOk result (groups.new.items ≡ groups.old.items ++ map group types.items) }
{
    for ty in types {
        push_group(alloc, ty, groups)?;
    }
    Ok(())
}

// A group of these types, each final and without supertypes.
fn one_group(alloc: Global, types: Vec<CompType>) -> Result<RecGroup, AllocError>
    ensures value { IfOk result (λ made. made.types ≡ map alone_of types.items) }
{
    let mut all = ListOf::new(alloc);
    for ty in types {
        all.push(SubType::alone(alloc, ty))?;
    }
    Ok(RecGroup { types: all })
}

// Puts the first two of these types in one group behind the others, and each other in a group of its own.
fn push_pair_first(
    alloc: Global,
    mut types: Vec<CompType>,
    groups: &mut Vec<RecGroup>,
) -> Result<(), AllocError>
    requires { 2 ≤ length types.items }
    ensures value { OnOk result (groups.new.items ≡ groups.old.items ++ pair_first types.items) }
{
    let others = types.split_off(2)?;
    groups.push(one_group(alloc, types)?)?;
    push_groups(alloc, others, groups)
}

/// The types of the module in groups: behind the first five stand two that name each other. It fails only for want of memory.
pub(crate) fn groups(alloc: Global, mut types: Vec<CompType>) -> Result<RecGroups, AllocError>
    requires { 7 ≤ length types.items }
    ensures value { IfOk result (λ groups. groups ≡ grouped types.items) }
{
    let others = types.split_off(5)?;
    let mut groups = Vec::new(alloc);
    push_groups(alloc, types, &mut groups)?;
    push_pair_first(alloc, others, &mut groups)?;
    RecGroups::from_vec(alloc, groups)
}

// The import of the printer of numbers.
fn printer(alloc: Global) -> Result<Import, AllocError>
    ensures value { IfOk result (λ import. import ≡ printer_import) }
{
    Ok(Import {
        module_name: Name::new(String::from_str(alloc, "host")?),
        item_name: Name::new(String::from_str(alloc, "print_i64")?),
        kind: ExternType::Func(PRINTER),
    })
}

/// Puts the import of the printer of numbers behind the others. It fails only for want of memory.
pub(crate) fn push_printer(alloc: Global, imports: &mut ListOf<Import>) -> Result<(), AllocError>
    ensures value { OnOk result (imports.new ≡ imports.old ++ printer_import ∷ []) }
{
    imports.push(printer(alloc)?)?;
    Ok(())
}

// The index of the type of a function with these parameters.
fn function_type_index(
    alloc: Global,
    program: &Program,
    parameters: &[Parameter],
) -> Result<u32, AllocError>
    ensures value { IfOk result (λ index. index ≡ function_type_index program.now parameters.now) }
{
    let ty = function_type(alloc, parameters)?;
    Ok(program.type_index(&ty))
}

/// Puts the indices of the types of functions behind the others. It fails only for want of memory.
pub(crate) fn push_function_types(
    alloc: Global,
    program: &Program,
    all: &mut ListOf<u32>,
) -> Result<(), AllocError>
    ensures value { OnOk result (all.new ≡ all.old ++ for_each (λ (d : TheDeclaration). function_type_of program.now d.definition) program.now) }
{
    for declaration in program.declarations() {
        if let Definition::Function(function) = &declaration.definition {
            let parameters = function.parameters.as_slice();
            all.push(function_type_index(alloc, program, parameters)?)?;
        }
    }
    Ok(())
}

// The index of the type of a handler with these parameters.
fn handler_type_index(
    alloc: Global,
    program: &Program,
    parameters: &[Parameter],
) -> Result<u32, AllocError>
    ensures value { IfOk result (λ index. index ≡ handler_type_index program.now parameters.now) }
{
    let ty = handler_type(alloc, parameters)?;
    Ok(program.type_index(&ty))
}

/// Puts the indices of the types of handlers behind the others. It fails only for want of memory.
pub(crate) fn push_handler_types(
    alloc: Global,
    program: &Program,
    all: &mut ListOf<u32>,
) -> Result<(), AllocError>
    ensures value { OnOk result (all.new ≡ all.old ++ for_each (λ (d : TheDeclaration). handler_type_of program.now d.definition) program.now) }
{
    for declaration in program.declarations() {
        if let Definition::Handler(handler) = &declaration.definition {
            let parameters = handler.parameters.as_slice();
            all.push(handler_type_index(alloc, program, parameters)?)?;
        }
    }
    Ok(())
}

// The table of slots, whose places are all empty at first.
fn table(slots: &Slots) -> Table
    ensures value { result ≡ slots_table slots.now }
{
    let places = slots.places.value;
    let element = RefType {
        nullable: true,
        heap: HeapType::Index(RESUMPTION),
    };
    let limits = Limits {
        min: places,
        max: Some(places),
    };
    Table {
        kind: TableType { element, limits },
        init: None,
    }
}

/// Puts the tables of slots behind the others. It fails only for want of memory.
pub(crate) fn push_tables(program: &Program, all: &mut ListOf<Table>) -> Result<(), AllocError>
    ensures value { OnOk result (all.new ≡ all.old ++ for_each (λ (d : TheDeclaration). table_of d.definition) program.now) }
{
    for declaration in program.declarations() {
        if let Definition::Slots(slots) = &declaration.definition {
            all.push(table(slots))?;
        }
    }
    Ok(())
}

// The index of the type of an effect with so many arguments.
fn effect_type_index(alloc: Global, program: &Program, number: &Number) -> Result<u32, AllocError>
    ensures value { IfOk result (λ index. index ≡ effect_type_index program.now number.now.value) }
{
    let ty = effect_type(alloc, number.value as usize)?;
    Ok(program.type_index(&ty))
}

// Puts the tags of effects behind the others.
fn push_effects(alloc: Global, program: &Program, all: &mut ListOf<Tag>) -> Result<(), AllocError>
    ensures value { OnOk result (all.new ≡ all.old ++ for_each (λ (d : TheDeclaration). tag_of program.now d.definition) program.now) }
{
    for declaration in program.declarations() {
        if let Definition::Effect(number) = &declaration.definition {
            let type_index = effect_type_index(alloc, program, number)?;
            all.push(Tag { type_index })?;
        }
    }
    Ok(())
}

/// Puts the tags of effects, and behind them that of groups, behind the others. It fails only for want of memory.
pub(crate) fn push_tags(
    alloc: Global,
    program: &Program,
    all: &mut ListOf<Tag>,
) -> Result<(), AllocError>
    ensures value { OnOk result (all.new ≡ all.old ++ (for_each (λ (d : TheDeclaration). tag_of program.now d.definition) program.now ++ group_tag ∷ [])) }
{
    push_effects(alloc, program, all)?;
    all.push(Tag {
        type_index: GROUP_TAG,
    })?;
    Ok(())
}

// The export of the function `main`, by its name.
fn main_export<'a>(
    alloc: Global,
    program: &Program<'a>,
    main: &'a DeclaredName,
) -> Result<Export, AllocError>
    requires { main.now ≡ codes "main" }
    ensures value { IfOk result (λ export. export ≡ main_export program.now) }
{
    Ok(Export {
        name: Name::new(String::from_str(alloc, "main")?),
        index: ExternIndex::Func(program.function_index(main)),
    })
}

/// Puts the export of the function `main` behind the others. It fails only for want of memory.
pub(crate) fn push_main<'a>(
    alloc: Global,
    program: &Program<'a>,
    main: &'a DeclaredName,
    exports: &mut ListOf<Export>,
) -> Result<(), AllocError>
    requires { main.now ≡ codes "main" }
    ensures value { OnOk result (exports.new ≡ exports.old ++ main_export program.now ∷ []) }
{
    exports.push(main_export(alloc, program, main)?)?;
    Ok(())
}

// The functions that are handled, by their indices.
fn handled_functions<'a>(alloc: Global, program: &Program<'a>) -> Result<Vec<u32>, AllocError>
    ensures value { IfOk result (λ all. all.items ≡ map (λ (d : TheDeclaration). function_index program.now d.name) (handled program.now)) }
{
    let mut all = Vec::new(alloc);
    for declaration in program.declarations() {
        if program.is_handled(declaration) {
            all.push(program.function_index(&declaration.name))?;
        }
    }
    Ok(all)
}

/// Puts the segment that declares the functions that are handled, where there are some, behind the others. It fails only for want of memory.
pub(crate) fn push_elements(
    alloc: Global,
    program: &Program,
    elements: &mut ListOf<Elem>,
) -> Result<(), AllocError>
    ensures value { OnOk result (elements.new ≡ elements.old ++ declared program.now (handled program.now)) }
{
    let functions = handled_functions(alloc, program)?;
    if functions.len() == 0 {
        return Ok(());
    }
    elements.push(Elem {
        kind: RefType::FUNC,
        items: Items::of_functions(ListOf::from_vec(functions)),
        mode: ElemMode::Declarative,
    })?;
    Ok(())
}

/// Puts the code of functions behind the others. It fails only for want of memory.
pub(crate) fn push_function_codes(
    alloc: Global,
    program: &Program,
    all: &mut ListOf<Func>,
) -> Result<(), AllocError>
    requires { sum_by (λ (d : TheDeclaration). definition_size d.definition) program.now ≤ size_limit }
    ensures value { OnOk result (all.new ≡ all.old ++ for_each (λ (d : TheDeclaration). function_code_of program.now d.definition) program.now) }
{
    for declaration in program.declarations() {
        if let Definition::Function(function) = &declaration.definition {
            all.push(function_code(alloc, program, function)?)?;
        }
    }
    Ok(())
}

/// Puts the code of handlers behind the others. It fails only for want of memory.
pub(crate) fn push_handler_codes(
    alloc: Global,
    program: &Program,
    all: &mut ListOf<Func>,
) -> Result<(), AllocError>
    requires { sum_by (λ (d : TheDeclaration). definition_size d.definition) program.now ≤ size_limit }
    ensures value { OnOk result (all.new ≡ all.old ++ for_each (λ (d : TheDeclaration). handler_code_of program.now d.name d.definition) program.now) }
{
    for declaration in program.declarations() {
        if let Definition::Handler(handler) = &declaration.definition {
            all.push(handler_code(alloc, program, &declaration.name, handler)?)?;
        }
    }
    Ok(())
}
