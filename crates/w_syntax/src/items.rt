//! The items of element segments. Most are one `ref.func` or one `ref.null`, which need no list of instructions.
ghost use Rattle.std.specs.Prelude.{◌≡◌, ◌<◌, Some, IfOk, IfSome, length, map, slice_get};
ghost use Rattle.w_syntax.specs.Items.{reference_to, null_of, code_of, code_of_form, codes_of_form};

use crate::body::Body;
use crate::instructions::ReferenceOp;
use crate::packed::PackedInstr;
use lists::ListOf;
use std::alloc::{AllocError, Global};
use std::marker::Model;
use w_types::HeapType;

/// How an item is kept: one `ref.func` with its function, one `ref.null` with its heap type, or an expression.
#[derive(Drop)]
pub enum ItemForm {
    Function(u32),
    Null(HeapType),
    Expression(Box<Body>),
}

/// An item of an element segment (Core, modules, element segments). Contracts see the tree of its expression.
#[derive(Drop)]
pub struct Item {
    form: ItemForm,
}

/// How the items of a segment are kept.
#[derive(Drop)]
pub enum ItemsForm {
    /// Each is one `ref.func`.
    Functions(ListOf<u32>),
    Mixed(ListOf<Item>),
}

/// The items of an element segment (Core, modules, element segments). Contracts see the list of their trees.
#[derive(Drop)]
pub struct Items {
    form: ItemsForm,
}

/// An item as it is read: one `ref.func` with its function, one `ref.null` with its heap type, or an expression.
#[derive(Clone, Copy)]
pub enum ItemView<'a> {
    Function(u32),
    Null(HeapType),
    Expression(&'a Body),
}

impl Model for Item {
    ghost use Rattle.w_syntax.specs.Code.{Code};
    ghost use Rattle.w_syntax.specs.FlatLaws.{code_code};

    ghost Value = { Code };

    ghost coded = { code_code };

    ghost use Rattle.w_syntax.specs.Items.{code_of_form};

    ghost view = { λ a. code_of_form a.form };
}

impl Model for Items {
    ghost use Rattle.std.specs.Prelude.{List};
    ghost use Rattle.std.specs.Coded.{coded_list};
    ghost use Rattle.w_syntax.specs.Code.{Code};
    ghost use Rattle.w_syntax.specs.FlatLaws.{code_code};

    ghost Value = { List Code };

    ghost coded = { coded_list code_code };

    ghost use Rattle.w_syntax.specs.Items.{codes_of_form};

    ghost view = { λ a. codes_of_form a.form };
}

// The item of a body that is one `ref.func` or one `ref.null`.
fn short_item(body: &Body) -> Option<Item>
    ensures { IfSome result (λ item. item ≡ body.now) }
{
    match body.only() {
        Some(PackedInstr::Reference(ReferenceOp::Func(function))) => Some(Item::function(
            *function,
        )),
        Some(PackedInstr::Reference(ReferenceOp::Null(heap))) => Some(Item::null(*heap)),
        _ => None,
    }
}

impl Item {
    /// One `ref.func` of this function.
    pub fn function(function: u32) -> Item
        ensures { result ≡ reference_to function }
    {
        Item {
            form: ItemForm::Function(function),
        }
    }

    /// One `ref.null` of this heap type.
    pub fn null(heap: HeapType) -> Item
        ensures { result ≡ null_of heap }
    {
        Item {
            form: ItemForm::Null(heap),
        }
    }

    /// This expression, which is kept short where it is one `ref.func` or one `ref.null`. It fails only for want of memory.
    pub fn expression(alloc: Global, body: Body) -> Result<Item, AllocError>
        ensures { IfOk result (λ item. item ≡ body) }
    {
        if let Some(item) = short_item(&body) {
            return Ok(item);
        }
        let body = Box::new(alloc, body)?;
        Ok(Item {
            form: ItemForm::Expression(body),
        })
    }

    /// The item, as it is kept.
    pub fn into_form(self) -> ItemForm
        ensures { code_of_form result ≡ self }
    {
        self.form
    }

    /// The item, to be looked at.
    pub fn view(&self) -> ItemView<'_>
        ensures { code_of result ≡ self.now }
    {
        match &self.form {
            ItemForm::Function(function) => ItemView::Function(*function),
            ItemForm::Null(heap) => ItemView::Null(*heap),
            ItemForm::Expression(body) => ItemView::Expression(body),
        }
    }
}

impl Items {
    /// References to these functions, each one `ref.func`.
    pub fn of_functions(functions: ListOf<u32>) -> Items
        ensures { result ≡ map reference_to functions }
    {
        Items {
            form: ItemsForm::Functions(functions),
        }
    }

    /// These items.
    pub fn of_items(items: ListOf<Item>) -> Items
        ensures { result ≡ items }
    {
        Items {
            form: ItemsForm::Mixed(items),
        }
    }

    /// The items, as they are kept.
    pub fn into_form(self) -> ItemsForm
        ensures { codes_of_form result ≡ self }
    {
        self.form
    }

    /// How many items there are.
    pub fn len(&self) -> usize
        ensures { result ≡ length self.now }
    {
        match &self.form {
            ItemsForm::Functions(functions) => functions.len(),
            ItemsForm::Mixed(items) => items.len(),
        }
    }

    /// The item at this place.
    pub fn at(&self, place: usize) -> ItemView<'_>
        requires { place < length self.now }
        ensures { slice_get self.now place ≡ Some (code_of result) }
    {
        match &self.form {
            ItemsForm::Functions(functions) => ItemView::Function(functions.as_slice()[place]),
            ItemsForm::Mixed(items) => items.as_slice()[place].view(),
        }
    }
}
