//! What a body is typed in.
ghost use Rattle.w_types.specs.Groups.{types_of};
ghost use Rattle.w_rows.specs.TypeRows.{AreTypeRows, IsReady};
ghost use Rattle.w_rows.specs.OneProof.{AreTypeRows-prop, IsReady-prop};

use w_rows::{FuncRows, TypeRow, TypeRows};
use w_rules::Context;

/// What a body is typed in: what its module has by index, the parameters and results of the module's function types, of which wide ones
/// stand ready, and the body's results.
#[derive(Clone, Copy)]
pub struct Setting<'a> {
    pub cx: &'a Context<'a>,
    pub rows: &'a TypeRows,
    pub results: TypeRow<'a>,
    ghost rows_ready: { AreTypeRows cx.now.classes.now (types_of cx.now.types.now) rows.now } by { AreTypeRows-prop cx.now.classes.now (types_of cx.now.types.now) rows.now },
    ghost results_ready: { IsReady cx.now.classes.now results } by { IsReady-prop cx.now.classes.now results },
}

impl<'a> Setting<'a> {
    ghost use Rattle.std.specs.Prelude.{◌≡◌, IfSome};
    ghost use Rattle.std.specs.Option.{option_map};
    ghost use Rattle.w_rules.specs.Context.{func_of, cont_of, type_of_func, type_of_tag};
    ghost use Rattle.w_rules.specs.View.{context_in};
    ghost use Rattle.w_rows.specs.TypeRows.{AreReadyRows, rows_type};

    /// The function type of this index, where the type of this index is one.
    pub fn func_of(&self, index: u32) -> Option<FuncRows<'a>>
        ensures kind { option_map rows_type result ≡ func_of (context_in self.now.cx.now) index }
        ensures ready { IfSome result (AreReadyRows self.now.cx.now.classes.now) }
    {
        self.rows.func_of(self.cx, index)
    }

    /// The function type of the continuation type of this index.
    pub fn cont_of(&self, index: u32) -> Option<FuncRows<'a>>
        ensures kind { option_map rows_type result ≡ cont_of (context_in self.now.cx.now) index }
        ensures ready { IfSome result (AreReadyRows self.now.cx.now.classes.now) }
    {
        match self.cx.func_index_of_cont(index) {
            Some(function) => self.func_of(function),
            None => None,
        }
    }

    /// The type of the function of this index.
    pub fn type_of_func(&self, index: u32) -> Option<FuncRows<'a>>
        ensures kind { option_map rows_type result ≡ type_of_func (context_in self.now.cx.now) index }
        ensures ready { IfSome result (AreReadyRows self.now.cx.now.classes.now) }
    {
        match self.cx.functions.get(index as usize) {
            Some(type_index) => self.func_of(*type_index),
            None => None,
        }
    }

    /// The type of the tag of this index.
    pub fn type_of_tag(&self, index: u32) -> Option<FuncRows<'a>>
        ensures kind { option_map rows_type result ≡ type_of_tag (context_in self.now.cx.now) index }
        ensures ready { IfSome result (AreReadyRows self.now.cx.now.classes.now) }
    {
        match self.cx.tags.get(index as usize) {
            Some(tag) => self.func_of(tag.type_index),
            None => None,
        }
    }
}
