//! Laws of the definitions, each the contract of a function that does nothing.
ghost use Rattle.std.specs.Prelude.{◌≤◌, ◌^◌, ℕ, List, length};
ghost use Rattle.w_syntax.specs.declared.module.Module.{Module};
ghost use Rattle.w_syntax.specs.Spells.{Spells};
ghost use Rattle.w_encode.specs.Canon.{Canon};
ghost use Rattle.w_encode.specs.Spelled.{PartsSpelled};

/// The canonical spelling of a module that some 2^30 bytes or fewer spell is a spelling of it.
pub fn canonical_spells()
    ensures { (b : List ℕ) (m : Module) → Spells b m → length b ≤ 2 ^ 30 → Spells (Canon m) m }
{}

/// The canonical spelling of a module whose parts can be spelled, where it is no longer than 2^30 bytes, is a spelling of it.
pub fn parts_spell()
    ensures { (m : Module) → PartsSpelled m → length (Canon m) ≤ 2 ^ 30 → Spells (Canon m) m }
{}
