//! Laws of the definitions, each the contract of a function that does nothing.
ghost use Rattle.std.specs.Prelude.{◌≡◌, ℕ, List};
ghost use Rattle.w_syntax.specs.declared.module.Module.{Module as TheModule};
ghost use Rattle.w_text.specs.Text.{Text, IsWrongAt};

/// A text has one module at most.
#[tactic(auto, using(crate::proofs::Least::one_module))]
pub fn one_module()
    ensures { (t : List ℕ) (m n : TheModule) → Text t m → Text t n → m ≡ n }
{}

/// No line of a text is wrong.
pub fn texts_are_right()
    ensures { (t : List ℕ) (m : TheModule) (l : ℕ) → Text t m → IsWrongAt t l → ⊥ }
{}
