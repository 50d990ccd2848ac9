//! Rows of types, of which wide ones stand ready.

use crate::fitting::{are_apart, words_fit};
use crate::operand::Operand;
use w_canon::Classes;
use w_types::PackedType;

/// What stands ready for a row of types: operands of these types, which are given by a copy, the words of the types where they are given and
/// where they are wanted, and the lengths of their spans. See `AreReady` of `specs/TypeRows.antt`.
#[derive(Clone, Copy)]
pub struct RowWords<'r> {
    pub operands: &'r [Operand],
    pub given: &'r [u32],
    pub wanted: &'r [u32],
    pub lengths: &'r [u32],
}

/// A row of types (Core, validation, result types), with what stands ready for it, where it is wide: see `IsReady` of
/// `specs/TypeRows.antt`.
#[derive(Clone, Copy)]
pub struct TypeRow<'r> {
    pub types: &'r [PackedType],
    pub words: Option<RowWords<'r>>,
}

impl<'r> RowWords<'r> {
    ghost use Rattle.std.specs.Prelude.{◌≤◌, length, take, drop};
    ghost use Rattle.w_rows.specs.TypeRows.{AreReady};

    // What stands ready for the first so many of these types, and for the others.
    fn split_at(
        self,
        classes: &Classes,
        types: &[PackedType],
        count: usize,
    ) -> (RowWords<'r>, RowWords<'r>)
        requires ready { AreReady classes.now types.now self.operands.now self.given.now self.wanted.now self.lengths.now }
        requires there { count ≤ length types.now }
        ensures front { AreReady classes.now (take count types.now) result.0.operands.now result.0.given.now result.0.wanted.now result.0.lengths.now }
        ensures behind { AreReady classes.now (drop count types.now) result.1.operands.now result.1.given.now result.1.wanted.now result.1.lengths.now }
    {
        let (front_operands, operands) = self.operands.split_at(count);
        let (front_given, given) = self.given.split_at(count);
        let (front_wanted, wanted) = self.wanted.split_at(count);
        let (front_lengths, lengths) = self.lengths.split_at(count);
        let front = RowWords {
            operands: front_operands,
            given: front_given,
            wanted: front_wanted,
            lengths: front_lengths,
        };
        let behind = RowWords {
            operands,
            given,
            wanted,
            lengths,
        };
        (front, behind)
    }
}

impl<'r> TypeRow<'r> {
    ghost use Rattle.std.specs.Prelude.{◌≡◌, ◌≤◌, ◌↔◌, IsTrue, List, length, take, drop, true};
    ghost use Rattle.w_types.specs.declared.types.RecGroup.{RecGroup};
    ghost use Rattle.w_canon.specs.declared.entry.Entry.{Entry};
    ghost use Rattle.w_canon.specs.Equality.{ResultEqual};
    ghost use Rattle.w_canon.specs.IsClassesOf.{HaveSpans, IsClassesOf};
    ghost use Rattle.w_canon.specs.Matching.{ResultMatches};
    ghost use Rattle.w_canon.specs.Tests.{result_test, result_narrow_test, result_same_test};
    ghost use Rattle.w_rows.specs.TypeRows.{IsReady};

    /// A row for which nothing stands ready, as a short one.
    pub fn bare(types: &'r [PackedType]) -> TypeRow<'r>
        ensures types { result.types.now ≡ types.now }
        ensures ready { (es : List Entry) → IsReady es result }
    {
        TypeRow { types, words: None }
    }

    /// The first so many types, and the others.
    pub fn split_at(self, classes: &Classes, count: usize) -> (TypeRow<'r>, TypeRow<'r>)
        requires ready { IsReady classes.now self }
        requires there { count ≤ length self.types.now }
        ensures front { result.0.types.now ≡ take count self.entry.types.now }
        ensures behind { result.1.types.now ≡ drop count self.entry.types.now }
        ensures ready { IsReady classes.now result.0 × IsReady classes.now result.1 }
    {
        let (front_types, types) = self.types.split_at(count);
        match self.words {
            Some(words) => {
                let (front, behind) = words.split_at(classes, self.types, count);
                (
                    TypeRow {
                        types: front_types,
                        words: Some(front),
                    },
                    TypeRow {
                        types,
                        words: Some(behind),
                    },
                )
            }
            None => (TypeRow::bare(front_types), TypeRow::bare(types)),
        }
    }

    /// Whether the types match those of another row, with equivalent indices, if that shows at once.
    pub(crate) fn fits(self, other: TypeRow) -> bool
        ensures { (es : List Entry) → HaveSpans es → IsReady es self.entry → IsReady es other.entry
            → IsTrue result → result_narrow_test es self.entry.types.now other.entry.types.now ≡ true }
    {
        match (self.words, other.words) {
            (Some(words), Some(others)) => {
                words.given.len() == others.wanted.len() && are_apart(words.given, others.wanted)
            }
            _ => false,
        }
    }

    /// Whether the types match those of another row, if that shows at once.
    pub(crate) fn lies_below(self, other: TypeRow) -> bool
        ensures { (es : List Entry) → IsReady es self.entry → IsReady es other.entry
            → IsTrue result → result_test es self.entry.types.now other.entry.types.now ≡ true }
    {
        match (self.words, other.words) {
            (Some(words), Some(others)) => { words_fit(words.given, others.wanted, others.lengths) }
            _ => false,
        }
    }

    /// Whether the types match those of another row, each the one at its place, and they are as many (Core, validation, matching).
    pub fn matches(self, classes: &Classes, other: TypeRow) -> bool
        requires one { IsReady classes.now self }
        requires other { IsReady classes.now other }
        ensures computed { result ≡ result_test classes.now self.entry.types.now other.entry.types.now }
        ensures related { (gs : List RecGroup) → IsClassesOf gs classes.now → (IsTrue result ↔ ResultMatches gs self.entry.types.now other.entry.types.now) }
    {
        if self.lies_below(other) {
            return true;
        }
        classes.matches_result(self.types, other.types)
    }

    /// Whether the types equal those of another row, each the one at its place, and they are as many, where indices are equal if their
    /// types are equivalent (Core, types, recursive types).
    pub fn equals(self, classes: &Classes, other: TypeRow) -> bool
        requires one { IsReady classes.now self }
        requires other { IsReady classes.now other }
        ensures computed { result ≡ result_same_test classes.now self.entry.types.now other.entry.types.now }
        ensures related { (gs : List RecGroup) → IsClassesOf gs classes.now → (IsTrue result ↔ ResultEqual gs self.entry.types.now other.entry.types.now) }
    {
        classes.have_spans();
        if self.fits(other) && other.fits(self) {
            return true;
        }
        classes.equals_result(self.types, other.types)
    }
}
