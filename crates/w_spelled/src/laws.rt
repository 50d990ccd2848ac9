//! Laws of the definitions, each the contract of a function that does nothing.
ghost use Rattle.std.specs.Prelude.{◌≡◌, ℕ, List};
ghost use Rattle.hex.specs.Hex.{IsBytes};
ghost use Rattle.w_syntax.specs.Spells.{Spells};
ghost use Rattle.w_syntax.specs.declared.module.Module.{Module as TheModule};
ghost use Rattle.w_text.specs.Text.{Text, text_of};
ghost use Rattle.w_spelled.specs.Tags.{TagsAreFew};

/// A module that bytes spell has a text.
pub fn spelled_fits()
    ensures { (b : List ℕ) (m : TheModule) → IsBytes b → Spells b m → Text (text_of m) m }
{}

/// That text is of no other module.
pub fn text_keeps_module()
    ensures { (b : List ℕ) (m n : TheModule) → IsBytes b → Spells b m → Text (text_of m) n → n ≡ m }
{}

/// A module has one text at most.
pub fn one_text()
    ensures { (t : List ℕ) (m : TheModule) → Text t m → text_of m ≡ t }
{}

/// A module that bytes spell has fewer than 2^32 tags.
pub fn tags_are_few()
    ensures { TagsAreFew }
{}
