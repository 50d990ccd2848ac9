//! Where the names of a body are among the locals of its function.
ghost use Rattle.std.specs.Prelude.{◌≡◌, IfOk, map};
ghost use Rattle.s_code.specs.Views.{local_in, FoundLocals};

use s_syntax::{Expr, Name, Node};
use std::alloc::{AllocError, Global};
use std::collections::BTreeMap;
use std::marker::Model;

/// The type of a value name.
#[derive(Clone, Copy)]
pub enum LocalType<'a> {
    /// A number.
    Int,
    /// A resumption of the handler of this name.
    Resumption(&'a Name),
    /// A coroutine.
    Coroutine,
}

/// A value name, with its type and the number of its local.
#[derive(Clone, Copy)]
pub struct LocalName<'a> {
    pub name: &'a Name,
    pub ty: LocalType<'a>,
    pub number: u32,
}

/// The handler in whose function a clause stands, and how many parameters it has.
#[derive(Clone, Copy)]
pub struct OwnHandler<'a> {
    pub name: &'a Name,
    pub parameters: u32,
}

/// Where the names of a body are among the locals of its function. Contracts see the list of names with their locals.
#[derive(Drop)]
pub struct Layout<'a> {
    names: Vec<LocalName<'a>>,
    first: BTreeMap<&'a [u8], LocalName<'a>>,
    temporaries: u32,
    owner: Option<OwnHandler<'a>>,
}

impl<'a> Model for Layout<'a> {
    ghost use Rattle.std.specs.Option.{option_map};
    ghost use Rattle.std.specs.Prelude.{map};
    ghost use Rattle.s_code.specs.Layouts.{Layout as TheLayout};
    ghost use Rattle.s_code.specs.Views.{layout_in, FoundLocals};

    ghost Value = { TheLayout };

    ghost view = { λ a. layout_in a.names.items a.temporaries a.owner };

    ghost invariant = { λ a. FoundLocals a.first a.names.items };
}

// The first local of each name.
fn first_locals<'a>(
    alloc: Global,
    names: &[LocalName<'a>],
) -> Result<BTreeMap<&'a [u8], LocalName<'a>>, AllocError>
    ensures found { IfOk result (λ first. FoundLocals first names.now) }
{
    let mut first = BTreeMap::new(alloc);
    for behind in 0..names.len() {
        let local = names[names.len() - 1 - behind];
        first.insert(local.name.as_bytes(), local)?;
    }
    Ok(first)
}

impl<'a> Layout<'a> {
    ghost use Rattle.std.specs.Prelude.{◌≡◌, ◌+◌, ◌<◌, ◌^◌, IfOk};
    ghost use Rattle.std.specs.Option.{option_map};
    ghost use Rattle.s_code.specs.Layouts.{local_of, local_number, handler_of_name, refers, stays, slot, is_own, owner_parameters};
    ghost use Rattle.s_code.specs.Views.{layout_in, local_in, name_in};

    /// These names, with the first temporary, and the handler in whose function a clause stands. It fails only for want of memory.
    pub fn new(
        alloc: Global,
        names: Vec<LocalName<'a>>,
        temporaries: u32,
        owner: Option<OwnHandler<'a>>,
    ) -> Result<Layout<'a>, AllocError>
        ensures value { IfOk result (λ layout. layout ≡ layout_in names.entry.items temporaries owner.entry) }
    {
        let first = first_locals(alloc, names.as_slice())?;
        Ok(Layout {
            names,
            first,
            temporaries,
            owner,
        })
    }

    /// The first temporary.
    pub(crate) fn temporaries(&self) -> u32
        ensures value { result ≡ self.now.temporaries }
    {
        self.temporaries
    }

    // The local of a name.
    fn find(&self, name: &'a Name) -> Option<LocalName<'a>>
        ensures value { option_map local_in result ≡ local_of self.now.names name.now }
    {
        self.first.get(&name.as_bytes()).copied()
    }

    /// The number of the local of a name; 0 where it has none.
    pub(crate) fn local_number(&self, name: &'a Name) -> u32
        ensures value { result ≡ local_number self.now name.now }
    {
        match self.find(name) {
            Some(local) => local.number,
            None => 0,
        }
    }

    /// The handler of the resumptions that a name has.
    pub(crate) fn handler_of_name(&self, name: &'a Name) -> Option<&'a Name>
        ensures value { option_map name_in result ≡ handler_of_name self.now name.now }
    {
        match self.find(name) {
            Some(
                LocalName {
                    name: _,
                    ty: LocalType::Resumption(handler),
                    number: _,
                },
            ) => Some(handler),
            _ => None,
        }
    }

    // Whether a name is of a resumption or a coroutine.
    fn refers(&self, name: &'a Name) -> bool
        ensures value { result ≡ refers self.now name.now }
    {
        match self.find(name) {
            Some(local) => !matches!(local.ty, LocalType::Int),
            None => false,
        }
    }

    /// Whether an expression is a bare name of a resumption or a coroutine.
    pub(crate) fn stays(&self, expr: &'a Expr) -> bool
        ensures value { result ≡ stays self.now expr.now }
    {
        match expr.node() {
            Node::Read(name) => self.refers(name),
            _ => false,
        }
    }

    /// Where the value of an argument lies until all arguments are there, where so many temporaries are in use.
    pub(crate) fn slot(&self, used: u32, expr: &'a Expr) -> u32
        requires { self.now.temporaries + used < 2 ^ 32 }
        ensures value { result ≡ slot self.now used expr.now }
    {
        let temporary = self.temporaries + used;
        match expr.node() {
            Node::Read(name) => {
                if self.refers(name) {
                    self.local_number(name)
                } else {
                    temporary
                }
            }
            _ => temporary,
        }
    }

    /// Whether the resumptions of a name go on under the handler in whose clause it stands.
    pub(crate) fn is_own(&self, name: &'a Name) -> bool
        ensures value { result ≡ is_own self.now name.now }
    {
        let Some(owner) = self.owner else {
            return false;
        };
        match self.handler_of_name(name) {
            Some(handler) => handler == owner.name,
            None => false,
        }
    }

    /// How many parameters the handler has in whose clause this is.
    pub(crate) fn owner_parameters(&self) -> u32
        ensures value { result ≡ owner_parameters self.now.owner }
    {
        match self.owner {
            Some(owner) => owner.parameters,
            None => 0,
        }
    }
}
