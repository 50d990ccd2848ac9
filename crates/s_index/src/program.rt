//! The declarations of a script with the types that they need.
ghost use Rattle.std.specs.Prelude.{◌≡◌, ◌≤◌, List, IfOk, OnOk, length};
ghost use Rattle.w_types.specs.declared.types.CompType.TheVariants.{Cont};
ghost use Rattle.s_syntax.specs.declared.name.Name.{Name as TheName};
ghost use Rattle.s_check.specs.Views.{HasNames};
ghost use Rattle.s_index.specs.Handled.{handled, handled_names, is_function_among};
ghost use Rattle.s_index.specs.Indices.{function_types, continuations, type_table};
ghost use Rattle.s_index.specs.Types.{clause_types, types_for, with_types, function_type, place};
ghost use Rattle.s_index.specs.Views.{names_of};

use crate::declarations::NumberedDeclarations;
use crate::handled::handled_names;
use crate::table::{add_type, first_types, place};
use crate::types::{clause_type, effect_type, function_type, handler_type};
use s_syntax::{Clause, Declaration, Definition, Name, Parameter, Slots};
use std::alloc::{AllocError, Global};
use std::collections::BTreeSet;
use std::marker::Model;
use w_types::CompType;

/// The declarations of a script, with the types of the module that it is compiled to. Contracts see the declarations as they stand in the
/// script.
#[derive(Drop)]
pub struct Program<'a> {
    alloc: Global,
    declarations: NumberedDeclarations<'a>,
    handled: BTreeSet<&'a [u8]>,
    types: Vec<CompType>,
}

impl<'a> Model for Program<'a> {
    ghost use Rattle.std.specs.Prelude.{◌≡◌, ◌≤◌, List, length};
    ghost use Rattle.s_syntax.specs.declared.script.Declaration.{Declaration};
    ghost use Rattle.s_check.specs.Views.{HasNames};
    ghost use Rattle.s_index.specs.Handled.{handled_names};
    ghost use Rattle.s_index.specs.Indices.{type_table};

    ghost Value = { List Declaration };

    ghost use Rattle.std.specs.Coded.{coded_list};
    ghost use Rattle.s_syntax.specs.contracts.script.Declaration as declaration_contract;

    ghost coded = { coded_list declaration_contract.the_row.coded };

    ghost view = { λ a. a.declarations };

    ghost invariant = { λ a. HasNames a.handled (handled_names a.declarations) × (a.types.items ≡ type_table a.declarations) × (length a.types.items ≤ 100007) };
}

// The set of these names.
fn set_of<'a>(alloc: Global, names: &[&'a Name]) -> Result<BTreeSet<&'a [u8]>, AllocError>
    ensures value { IfOk result (λ set. HasNames set (names_of names.now)) }
{
    let mut set = BTreeSet::new(alloc);
    for behind in 0..names.len() {
        set.insert(names[names.len() - 1 - behind].as_bytes())?;
    }
    Ok(set)
}

// Adds the types of the blocks of clauses.
fn add_clause_types(
    alloc: Global,
    clauses: &[Clause],
    types: &mut Vec<CompType>,
) -> Result<(), AllocError>
    ensures value { OnOk result (types.new.items ≡ with_types types.old.items (clause_types clauses.now)) }
{
    for clause in clauses {
        add_type(types, clause_type(alloc, clause.arguments.len())?)?;
    }
    Ok(())
}

// Adds the types for a definition.
fn add_types_for(
    alloc: Global,
    definition: &Definition,
    types: &mut Vec<CompType>,
) -> Result<(), AllocError>
    ensures value { OnOk result (types.new.items ≡ with_types types.old.items (types_for definition.now)) }
{
    match definition {
        Definition::Effect(number) => add_type(types, effect_type(alloc, number.value as usize)?),
        Definition::Function(function) => {
            add_type(types, function_type(alloc, function.parameters.as_slice())?)
        }
        Definition::Handler(handler) => {
            add_type(types, handler_type(alloc, handler.parameters.as_slice())?)?;
            add_clause_types(alloc, handler.clauses.as_slice(), types)
        }
        Definition::Slots(_) => Ok(()),
    }
}

// The function types of a script.
fn function_types(alloc: Global, all: &[Declaration]) -> Result<Vec<CompType>, AllocError>
    ensures value { IfOk result (λ types. types.items ≡ function_types all.now) }
{
    let mut types = first_types(alloc)?;
    for declaration in all {
        add_types_for(alloc, &declaration.definition, &mut types)?;
    }
    Ok(types)
}

// Whether a declaration is of a function with one of these names.
fn is_function_among<'a>(names: &BTreeSet<&'a [u8]>, declaration: &'a Declaration) -> bool
    ensures value { (xs : List TheName) → HasNames names.now xs → result ≡ is_function_among xs declaration.now declaration.now.definition }
{
    match &declaration.definition {
        Definition::Function(_) => names.contains(&declaration.name.as_bytes()),
        Definition::Effect(_) | Definition::Handler(_) | Definition::Slots(_) => false,
    }
}

// The type of continuations of a function with these parameters, whose type is among these.
fn continuation_type(
    alloc: Global,
    types: &[CompType],
    parameters: &[Parameter],
) -> Result<CompType, AllocError>
    requires { length types.now ≤ 100007 }
    ensures value { IfOk result (λ ty. ty ≡ Cont (place (function_type parameters.now) types.now)) }
{
    let function = function_type(alloc, parameters)?;
    Ok(CompType::Cont(place(types, &function) as u32))
}

// The types of continuations of the functions that are handled, in order.
fn continuation_types<'a>(
    alloc: Global,
    declarations: &NumberedDeclarations<'a>,
    names: &BTreeSet<&'a [u8]>,
    functions: &[CompType],
) -> Result<Vec<CompType>, AllocError>
    requires has { HasNames names.now (handled_names declarations.now) }
    requires functions { functions.now ≡ function_types declarations.now }
    requires few { length functions.now ≤ 100007 }
    ensures value { IfOk result (λ types. types.items ≡ continuations declarations.now (handled declarations.now)) }
{
    let mut types = Vec::new(alloc);
    for declaration in declarations.all() {
        if is_function_among(names, declaration) {
            let parameters = declarations.parameters(&declaration.name);
            types.push(continuation_type(alloc, functions, parameters)?)?;
        }
    }
    Ok(types)
}

// Adds types, each where it isn't there yet.
fn add_types(types: &mut Vec<CompType>, more: Vec<CompType>) -> Result<(), AllocError>
    ensures value { OnOk result (types.new.items ≡ with_types types.old.items more.items) }
{
    for ty in more {
        add_type(types, ty)?;
    }
    Ok(())
}

impl<'a> Program<'a> {
    ghost use Rattle.std.specs.Prelude.{◌≡◌, ◌≤◌, IfOk, length, sum_by};
    ghost use Rattle.s_syntax.specs.declared.script.Declaration.{Declaration as TheDeclaration};
    ghost use Rattle.s_check.specs.Size.{definition_size, size_limit};
    ghost use Rattle.s_check.specs.Definitions.{slots_of};
    ghost use Rattle.s_index.specs.Numbers.{function_index, handler_index, tag_index, group_tag_index, table_index};
    ghost use Rattle.s_index.specs.Handled.{handled_names, is_function_among};
    ghost use Rattle.s_index.specs.Indices.{type_table, type_index, clause_type_index, continuation_index};
    ghost use Rattle.s_index.specs.Views.{slots_at};

    /// Those of a script whose size is within the limit. It fails only for want of memory.
    pub fn new(alloc: Global, all: &'a [Declaration]) -> Result<Program<'a>, AllocError>
        requires { sum_by (λ (d : TheDeclaration). definition_size d.definition) all.now ≤ size_limit }
        ensures value { IfOk result (λ program. program ≡ all.now) }
    {
        let declarations = NumberedDeclarations::new(alloc, all)?;
        let names = handled_names(alloc, all)?;
        let handled = set_of(alloc, names.as_slice())?;
        let mut types = function_types(alloc, all)?;
        let continuations = continuation_types(alloc, &declarations, &handled, types.as_slice())?;
        add_types(&mut types, continuations)?;
        Ok(Program {
            alloc,
            declarations,
            handled,
            types,
        })
    }

    /// The declarations, in order.
    pub fn declarations(&self) -> &'a [Declaration]
        ensures value { result.now ≡ self.now }
    {
        self.declarations.all()
    }

    /// The types of the module, in order.
    pub fn types(&self) -> &[CompType]
        ensures value { result.now ≡ type_table self.now }
    {
        self.types.as_slice()
    }

    /// The types of the module, in order, at least the first ones of each module.
    #[tactic(auto, using(crate::proofs::Lengths::first_there))]
    pub fn into_types(self) -> Vec<CompType>
        ensures value { result.items ≡ type_table self.entry }
        ensures many { 7 ≤ length result.items }
    {
        let Program {
            alloc: _,
            declarations: _,
            handled: _,
            types,
        } = self;
        types
    }

    /// Whether a declaration is of a function that some handle, group or spawn names.
    pub fn is_handled(&self, declaration: &'a Declaration) -> bool
        ensures value { result ≡ is_function_among (handled_names self.now) declaration.now declaration.now.definition }
    {
        is_function_among(&self.handled, declaration)
    }

    /// The index of a type; the number of all types where it is none of them.
    pub fn type_index(&self, ty: &CompType) -> u32
        ensures value { result ≡ type_index self.now ty.now }
    {
        place(self.types.as_slice(), ty) as u32
    }

    /// The index of the type of a clause's block. It fails only for want of memory.
    pub fn clause_type_index(&self, arguments: usize) -> Result<u32, AllocError>
        ensures value { IfOk result (λ index. index ≡ clause_type_index self.now arguments) }
    {
        Ok(self.type_index(&clause_type(self.alloc, arguments)?))
    }

    /// The index of the type of a function's continuations. It fails only for want of memory.
    pub fn continuation_index(&self, function: &'a Name) -> Result<u32, AllocError>
        ensures value { IfOk result (λ index. index ≡ continuation_index self.now function.now) }
    {
        let parameters = self.declarations.parameters(function);
        let function = self.type_index(&function_type(self.alloc, parameters)?);
        Ok(self.type_index(&CompType::Cont(function)))
    }

    /// The index of a function in the module.
    pub fn function_index(&self, name: &'a Name) -> u32
        ensures value { result ≡ function_index self.now name.now }
    {
        self.declarations.function_index(name)
    }

    /// The index of a handler's function in the module.
    pub fn handler_index(&self, name: &'a Name) -> u32
        ensures value { result ≡ handler_index self.now name.now }
    {
        self.declarations.handler_index(name)
    }

    /// The index of an effect's tag in the module.
    pub fn tag_index(&self, name: &'a Name) -> u32
        ensures value { result ≡ tag_index self.now name.now }
    {
        self.declarations.tag_index(name)
    }

    /// The index of the tag of groups in the module, which coroutines switch on.
    pub fn group_tag_index(&self) -> u32
        ensures value { result ≡ group_tag_index self.now }
    {
        self.declarations.group_tag_index()
    }

    /// The index of the table of slots in the module.
    pub fn table_index(&self, name: &'a Name) -> u32
        ensures value { result ≡ table_index self.now name.now }
    {
        self.declarations.table_index(name)
    }

    /// The slots of a name, where it is that of some.
    #[tactic(auto, using(crate::proofs::Entries::slots_entered))]
    pub fn slots(&self, name: &'a Name) -> Option<&'a Slots>
        ensures value { slots_at result ≡ slots_of self.now name.now }
    {
        self.declarations.slots(name)
    }
}
