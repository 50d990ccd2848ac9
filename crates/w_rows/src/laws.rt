//! Laws of the definitions, each the contract of a function that does nothing.
ghost use Rattle.std.specs.Prelude.{ℕ, List};
ghost use Rattle.w_types.specs.declared.types.ValType.{ValType};
ghost use Rattle.w_types.specs.declared.types.RecGroup.{RecGroup};
ghost use Rattle.w_canon.specs.declared.entry.Entry.{Entry};
ghost use Rattle.w_canon.specs.IsClassesOf.{IsClassesOf};
ghost use Rattle.w_canon.specs.Matching.{ValMatches};
ghost use Rattle.w_rows.specs.Words.{IsGiven, IsWanted, IsLength, TellBelow};

/// A word of a type that is given and one of a type that is wanted, with the length of that one's span, have no bit in common, or only of
/// their classes and the one class in the other's span, only where the first type matches the second (Core, validation, matching).
#[tactic(auto, using(crate::proofs::WordsBelow::words_match))]
pub fn words_tell_matching()
    ensures { (gs : List RecGroup) (es : List Entry) (t u : ValType) (w v n : ℕ) → IsClassesOf gs es
        → IsGiven es t w → IsWanted es u v → IsLength es u n → TellBelow w v n → ValMatches gs t u }
{}
