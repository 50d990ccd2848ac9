//! What the names of declarations stand for, and their numbers.
ghost use Rattle.std.specs.Prelude.{◌≡◌, ◌≤◌, IfOk, OnOk, length};
ghost use Rattle.s_syntax.specs.declared.name.Name.{Name as TheName};
ghost use Rattle.s_index.specs.Numbers.{counts_of};
ghost use Rattle.s_index.specs.Views.{FindsEntries, found, or_else, entry_named};
ghost use Rattle.s_check.specs.Size.{size_limit};

use crate::counts::Counts;
use s_syntax::{Declaration, Definition, Name, Parameter, Slots};
use std::alloc::{AllocError, Global};
use std::collections::BTreeMap;
use std::marker::Model;

/// A definition, and its number among those of its kind.
#[derive(Clone, Copy)]
pub(crate) struct Numbered<'a> {
    pub definition: &'a Definition,
    pub number: u32,
}

/// The declarations of a script, by name. Contracts see them as they stand in the script.
#[derive(Drop)]
pub(crate) struct NumberedDeclarations<'a> {
    all: &'a [Declaration],
    first: BTreeMap<&'a [u8], Numbered<'a>>,
    counts: Counts,
}

/// The declarations that are numbered so far.
struct Numbering<'a> {
    first: BTreeMap<&'a [u8], Numbered<'a>>,
    counts: Counts,
}

impl<'a> Model for NumberedDeclarations<'a> {
    ghost use Rattle.std.specs.Prelude.{◌≡◌, ◌≤◌, List, length};
    ghost use Rattle.s_syntax.specs.declared.script.Declaration.{Declaration};
    ghost use Rattle.s_index.specs.Numbers.{counts_of};
    ghost use Rattle.s_index.specs.Views.{FindsEntries};
    ghost use Rattle.s_check.specs.Size.{size_limit};

    ghost Value = { List Declaration };

    ghost use Rattle.std.specs.Coded.{coded_list};
    ghost use Rattle.s_syntax.specs.contracts.script.Declaration as declaration_contract;

    ghost coded = { coded_list declaration_contract.the_row.coded };

    ghost view = { λ a. a.all.now };

    ghost invariant = { λ a. FindsEntries a.first a.all.now × (a.counts ≡ counts_of a.all.now) × (length a.all.now ≤ size_limit) };
}

// Keeps what a name stands for, where it doesn't stand for anything yet.
fn keep_first<'a>(
    first: &mut BTreeMap<&'a [u8], Numbered<'a>>,
    declaration: &'a Declaration,
    number: u32,
) -> Result<(), AllocError>
    ensures found { OnOk result ((x : TheName) → found first.new x ≡ or_else (found first.old x) (entry_named declaration.now number x)) }
{
    if first.contains_key(&declaration.name.as_bytes()) {
        return Ok(());
    }
    let definition = &declaration.definition;
    first.insert(declaration.name.as_bytes(), Numbered { definition, number })?;
    Ok(())
}

// The first definition of each name.
fn number_all<'a>(alloc: Global, all: &'a [Declaration]) -> Result<Numbering<'a>, AllocError>
    requires { length all.now ≤ size_limit }
    ensures found { IfOk result (λ n. FindsEntries n.first all.now) }
    ensures counts { IfOk result (λ n. n.counts ≡ counts_of all.now) }
{
    let mut first: BTreeMap<&'a [u8], Numbered<'a>> = BTreeMap::new(alloc);
    let mut counts = Counts::none();
    for declaration in all {
        let number = counts.number_behind(&declaration.definition);
        keep_first(&mut first, declaration, number)?;
        counts = counts.counted(&declaration.definition);
    }
    Ok(Numbering { first, counts })
}

impl<'a> NumberedDeclarations<'a> {
    ghost use Rattle.std.specs.Prelude.{◌≡◌, ◌≤◌, IfOk, IfSome, length};
    ghost use Rattle.s_index.specs.Numbers.{counts_of, entry_of, slots_in, function_index, handler_index, tag_index, group_tag_index, table_index, first_handler};
    ghost use Rattle.s_index.specs.Indices.{parameters_of};
    ghost use Rattle.s_index.specs.Views.{entry_at, slots_at};
    ghost use Rattle.s_check.specs.Size.{size_limit};

    /// Those of a script. It fails only for want of memory.
    pub fn new(
        alloc: Global,
        all: &'a [Declaration],
    ) -> Result<NumberedDeclarations<'a>, AllocError>
        requires { length all.now ≤ size_limit }
        ensures value { IfOk result (λ declarations. declarations ≡ all.now) }
    {
        let Numbering { first, counts } = number_all(alloc, all)?;
        Ok(NumberedDeclarations { all, first, counts })
    }

    /// The declarations, in order.
    pub fn all(&self) -> &'a [Declaration]
        ensures value { result.now ≡ self.now }
    {
        self.all
    }

    // What a name stands for.
    fn find(&self, name: &'a Name) -> Option<Numbered<'a>>
        ensures value { entry_at result ≡ entry_of self.now name.now }
        ensures small { IfSome result (λ n. n.number ≤ size_limit) }
    {
        self.first.get(&name.as_bytes()).copied()
    }

    /// The index of a function in the module.
    pub fn function_index(&self, name: &'a Name) -> u32
        ensures value { result ≡ function_index self.now name.now }
    {
        match self.find(name) {
            Some(
                Numbered {
                    definition: Definition::Function(_),
                    number,
                },
            ) => number + 1,
            _ => 0,
        }
    }

    /// The index of the first handler among the functions of the module.
    pub fn first_handler(&self) -> u32
        ensures value { result ≡ first_handler self.now }
        ensures small { result ≤ 50001 }
    {
        self.counts.functions + 1
    }

    /// The index of a handler's function in the module.
    pub fn handler_index(&self, name: &'a Name) -> u32
        ensures value { result ≡ handler_index self.now name.now }
    {
        match self.find(name) {
            Some(
                Numbered {
                    definition: Definition::Handler(_),
                    number,
                },
            ) => self.first_handler() + number,
            _ => 0,
        }
    }

    /// The index of an effect's tag in the module.
    pub fn tag_index(&self, name: &'a Name) -> u32
        ensures value { result ≡ tag_index self.now name.now }
    {
        match self.find(name) {
            Some(
                Numbered {
                    definition: Definition::Effect(_),
                    number,
                },
            ) => number,
            _ => 0,
        }
    }

    /// The index of the tag of groups in the module: it stands behind those of effects.
    pub fn group_tag_index(&self) -> u32
        ensures value { result ≡ group_tag_index self.now }
    {
        self.counts.effects
    }

    /// The index of the table of slots in the module.
    pub fn table_index(&self, name: &'a Name) -> u32
        ensures value { result ≡ table_index self.now name.now }
    {
        match self.find(name) {
            Some(
                Numbered {
                    definition: Definition::Slots(_),
                    number,
                },
            ) => number,
            _ => 0,
        }
    }

    /// The slots of a name, where it is that of some.
    pub fn slots(&self, name: &'a Name) -> Option<&'a Slots>
        ensures value { slots_at result ≡ slots_in (entry_of self.now name.now) }
    {
        match self.find(name) {
            Some(
                Numbered {
                    definition: Definition::Slots(slots),
                    number: _,
                },
            ) => Some(slots),
            _ => None,
        }
    }

    /// The parameters of a function; none where the name isn't that of one.
    pub fn parameters(&self, name: &'a Name) -> &'a [Parameter]
        ensures value { result.now ≡ parameters_of self.now name.now }
    {
        match self.find(name) {
            Some(
                Numbered {
                    definition: Definition::Function(function),
                    number: _,
                },
            ) => function.parameters.as_slice(),
            _ => &[],
        }
    }
}
