//! Laws of the definitions, each the contract of a function that does nothing.
ghost use Rattle.std.specs.Prelude.{List};
ghost use Rattle.w_types.specs.declared.types.RecGroup.{RecGroup};
ghost use Rattle.w_canon.specs.declared.entry.Entry.{Entry};
ghost use Rattle.w_rules.specs.View.{AreClasses};
ghost use Rattle.w_flow.specs.Flow.{IsExact};

/// A step of a flow is exact: it stands for just the rows that the type leads to from the rows that the flow stands for, and there is
/// none exactly where the type leads nowhere (Core, validation algorithm).
#[tactic(auto, using(crate::proofs::Exact::exact))]
pub fn exact_step()
    ensures { (gs : List RecGroup) (es : List Entry) → AreClasses gs es → IsExact gs es }
{}
