//! What the spellings of modules have in common.
ghost use Rattle.std.specs.Prelude.{◌<◌, ◌≡◌, ◌++◌, length, List, ℕ};
ghost use Rattle.w_syntax.specs.Spells.{Spells};
ghost use Rattle.w_syntax.specs.declared.module.Module.{Module as TheModule};
ghost use Rattle.w_decode.specs.Continued.{Continues};
ghost use Rattle.w_decode.specs.Ends.{EndsAs};

/// A spelling is of one module.
pub fn one_module()
    ensures { (b : List ℕ) (m n : TheModule) → Spells b m → Spells b n → m ≡ n }
{}

/// Once the code of a function ends within some bytes, each module whose spelling begins with them has the lists in front of the code
/// section that end within them, and the codes that do are the first of its own.
pub fn front_of()
    ensures { (b c : List ℕ) (m n : TheModule) → EndsAs b m → Spells (b ++ c) n → 0 < length m.codes → Continues m n }
{}
