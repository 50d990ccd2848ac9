//! Laws of the definitions, each the contract of a function that does nothing.
ghost use Rattle.std.specs.Prelude.{◌≡◌, ◌↔◌, ℕ, List, Err};
ghost use Rattle.s_syntax.specs.declared.token.Kind.{Kind as TheKind};
ghost use Rattle.s_lex.specs.declared.fault.LexFault.TheVariants.{OutOfMemory};
ghost use Rattle.s_lex.specs.declared.piece.Piece.TheVariants.{Token, Blank, Bad};
ghost use Rattle.s_lex.specs.Stands.{TokenStands, BlankStands, NothingStands};
ghost use Rattle.s_lex.specs.Pieces.{piece_of};
ghost use Rattle.s_lex.specs.Lexes.{Lexed, Lexes};

/// What is computed to stand in front of bytes is what the rules say: a token exactly where its text is the longest one of a word, a
/// number or a symbol; a separator or a comment exactly where one stands; and nothing exactly where none of these does.
pub fn pieces_are_as_the_rules_say()
    ensures token { (bytes : List ℕ) (k : TheKind) (n : ℕ) → (piece_of bytes ≡ Token k n) ↔ TokenStands bytes k n }
    ensures blank { (bytes : List ℕ) (n : ℕ) → (piece_of bytes ≡ Blank n) ↔ BlankStands bytes n }
    ensures bad { (bytes : List ℕ) → (piece_of bytes ≡ Bad) ↔ NothingStands bytes }
{}

/// Bytes are cut in one way.
pub fn one_lexing()
    ensures one { (bytes : List ℕ) (r s : Lexed) → Lexes 0 bytes r → Lexes 0 bytes s → r ≡ s }
{}

/// And they are cut in one, in which memory never runs out.
pub fn some_lexing()
    ensures some { (bytes : List ℕ) → (r : Lexed) × Lexes 0 bytes r }
    ensures memory { (bytes : List ℕ) → Lexes 0 bytes (Err OutOfMemory) → ⊥ }
{}
