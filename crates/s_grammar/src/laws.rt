//! Laws of the definitions, each the contract of a function that does nothing.
ghost use Rattle.std.specs.Prelude.{◌≡◌, ℕ, List};
ghost use Rattle.s_syntax.specs.declared.script.Script.{Script as TheScript};
ghost use Rattle.s_syntax.specs.declared.token.Token.{Token as TheToken};
ghost use Rattle.s_syntax.specs.declared.token.Kind.TheVariants as kind;
ghost use Rattle.s_lex.specs.Texts.{IsText, value};
ghost use Rattle.s_grammar.specs.Texts.{text_of, number_of};
ghost use Rattle.s_grammar.specs.Syntax.{Spells};

/// Tokens spell one script at most.
pub fn one_script()
    ensures one { (bytes : List ℕ) (ts : List TheToken) (p q : TheScript) → Spells bytes ts p → Spells bytes ts q → p ≡ q }
{}

/// The number of a token is the value of its digits, where its text is one of a number.
pub fn numbers_are_values()
    ensures value { (bytes : List ℕ) (t : TheToken) → IsText kind.Int (text_of bytes t) → (number_of bytes t).value ≡ value (text_of bytes t) }
{}
