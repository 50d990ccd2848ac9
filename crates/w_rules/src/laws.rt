//! Laws of the definitions, each the contract of a function that does nothing.
ghost use Rattle.std.specs.Prelude.{◌≡◌, ◌≤◌, ℕ, Bool, List};
ghost use Rattle.w_syntax.specs.declared.locals.LocalRun.{LocalRun};
ghost use Rattle.w_syntax.specs.Locals.{joined};
ghost use Rattle.w_syntax.specs.Code.{Code};
ghost use Rattle.w_syntax.specs.declared.module.Module.{Module};
ghost use Rattle.w_canon.specs.Matching.{ValMatches, ResultMatches, FuncMatches};
ghost use Rattle.w_canon.specs.Relations.{IsReflexive, IsTransitive};
ghost use Rattle.lists.specs.Rows.{Row};
ghost use Rattle.w_rules.specs.Bodies.{types_of_runs};
ghost use Rattle.w_rules.specs.Context.{Context};
ghost use Rattle.w_rules.specs.DataNeeds.{needs, with_datas};
ghost use Rattle.w_rules.specs.Operands.{Operand};
ghost use Rattle.w_rules.specs.Peak.{peak};
ghost use Rattle.w_rules.specs.Typing.{Derives};
ghost use Rattle.w_rules.specs.Family.{OneTyping};
ghost use Rattle.w_rules.specs.Valid.{Valid};

/// The rules of the standard, with composition and subsumption as rules of their own, derive what the definition of typing
/// says.
pub fn one_typing()
    ensures { OneTyping }
{}

/// Joining runs of locals keeps the type of each local.
pub fn joining_keeps_types()
    ensures { (runs : List LocalRun) → types_of_runs (joined runs) ≡ types_of_runs runs }
{}

/// A sequence is typed where there are the data segments that it names, however many more there are, and never where one of them is
/// missing; and it needs as many operands.
pub fn typed_by_what_is_named()
    ensures has { (c : Context) (n : ℕ) (k : Code) (s : List Bool) (ts us : Row Operand) → Derives (with_datas n c) s k ts us → needs k ≤ n }
    ensures typed { (c : Context) (n d : ℕ) (k : Code) (s : List Bool) (ts us : Row Operand) → Derives (with_datas n c) s k ts us
        → needs k ≤ d → Derives (with_datas d c) s k ts us }
    ensures peak { (c : Context) (n d : ℕ) (k : Code) (s : List Bool) (h : ℕ) → needs k ≤ n → needs k ≤ d
        → peak (with_datas n c) s k h ≡ peak (with_datas d c) s k h }
{}

/// Matching in a valid module is a preorder.
pub fn matching_in_valid_modules_is_a_preorder()
    ensures values { (m : Module) → Valid m → IsReflexive (ValMatches m.types) × IsTransitive (ValMatches m.types) }
    ensures results { (m : Module) → Valid m → IsReflexive (ResultMatches m.types) × IsTransitive (ResultMatches m.types) }
    ensures functions { (m : Module) → Valid m → IsReflexive (FuncMatches m.types) × IsTransitive (FuncMatches m.types) }
{}
