//! Rows of types, each compared with the one at its place in another row.
ghost use Rattle.std.specs.Prelude.{◌≡◌, ◌+◌, ◌*◌, ◌<◌, IsTrue, length};
ghost use Rattle.w_types.specs.PackedTypes.{kind_of, index_of};
ghost use Rattle.w_canon.specs.Relations.{Pairwise};
ghost use Rattle.w_canon.specs.Tests.{pairwise_test};
ghost use Rattle.w_canon.specs.Compared.{IsAlike, compared};

use crate::classes::Classes;
use w_types::PackedType;

/// Rows of so many types are compared whole.
const WIDE: usize = 8;

/// How types are compared.
#[derive(Clone, Copy)]
pub(crate) enum Comparison {
    /// Whether one matches the other.
    Matching,
    /// Whether one equals the other.
    Equality,
}

/// A type, and another that it was compared with.
#[derive(Clone, Copy)]
pub(crate) struct Pair {
    one: PackedType,
    other: PackedType,
}

// Whether types are just the others. It goes through all, so that the comparison has no branches.
fn are_same(ones: &[PackedType], others: &[PackedType]) -> bool
    requires { length ones.now ≡ length others.now }
    ensures { IsTrue result → ones.now ≡ others.now }
{
    let mut alike = true;
    for i in 0..others.len() {
        let one = ones[i];
        let other = others[i];
        alike &= one == other;
    }
    alike
}

// A type as one number.
#[tactic(auto, using(crate::proofs::ShapesOfTypes::kind_below))]
#[inline(always)]
fn number_of(kind: PackedType) -> u64
    ensures { result ≡ index_of kind * 4294967296 + kind_of kind }
{
    u64::from(kind.index()) * 4294967296 + u64::from(kind.kind())
}

// Whether two types are the same. As one number a type is compared at once, also with one that a loop keeps.
#[tactic(auto, using(crate::proofs::ShapesOfTypes::same_number))]
#[inline(always)]
fn is_same(one: PackedType, other: PackedType) -> bool
    ensures { IsTrue result → one ≡ other }
{
    number_of(one) == number_of(other)
}

// Whether two types are those of a pair.
#[inline(always)]
fn is_pair(pair: Pair, one: PackedType, other: PackedType) -> bool
    ensures { IsTrue result → (one ≡ pair.one) × (other ≡ pair.other) }
{
    is_same(one, pair.one) && is_same(other, pair.other)
}

// Whether two types are the same, or those of a pair.
#[inline(always)]
fn is_alike(pair: &Pair, one: PackedType, other: PackedType) -> bool
    ensures { IsTrue result → IsAlike pair.now one other }
{
    is_same(one, other) | is_pair(*pair, one, other)
}

// Whether each two types are the same, or those of a pair. It goes through all, so that the comparison has no branches.
fn are_alike(pair: &Pair, ones: &[PackedType], others: &[PackedType]) -> bool
    requires { length ones.now ≡ length others.now }
    ensures { IsTrue result → Pairwise (IsAlike pair.now) ones.now others.now }
{
    let mut alike = true;
    for i in 0..others.len() {
        let one = ones[i];
        let other = others[i];
        alike &= is_alike(pair, one, other);
    }
    alike
}

// The last two types that are not the same, if there are such.
fn last_unlike(ones: &[PackedType], others: &[PackedType]) -> Option<Pair>
    requires { length ones.now ≡ length others.now }
{
    let mut i = others.len();
    while i > 0 {
        i -= 1;
        let one = ones[i];
        let other = others[i];
        if one != other {
            return Some(Pair { one, other });
        }
    }
    None
}

impl Classes {
    // Whether a type compares with another.
    fn compares(&self, how: Comparison, one: PackedType, other: PackedType) -> bool
        ensures { result ≡ compared self.now how one other }
    {
        match how {
            Comparison::Matching => self.matches_val(one, other),
            Comparison::Equality => self.equals_val(one, other),
        }
    }

    // Whether a type compares with another; the last pair that was looked up is not looked up again, since the next one is mostly the
    // same.
    #[inline(always)]
    fn compares_again(
        &self,
        how: Comparison,
        found: &mut Pair,
        one: PackedType,
        other: PackedType,
    ) -> bool
        requires { IsTrue (compared self.now how found.old.one found.old.other) }
        ensures decided { result ≡ compared self.now how one other }
        ensures found { IsTrue (compared self.now how found.new.one found.new.other) }
    {
        if is_alike(found, one, other) {
            return true;
        }
        if !self.compares(how, one, other) {
            return false;
        }
        *found = Pair { one, other };
        true
    }

    // Whether types compare with the others, one by one.
    fn compare_each(&self, how: Comparison, ones: &[PackedType], others: &[PackedType]) -> bool
        requires { length ones.now ≡ length others.now }
        ensures { result ≡ pairwise_test (compared self.now how) ones.now others.now }
    {
        let mut found = Pair {
            one: PackedType::I32,
            other: PackedType::I32,
        };
        for (index, one) in ones.iter().enumerate() {
            if !self.compares_again(how, &mut found, *one, others[index]) {
                return false;
            }
        }
        true
    }

    // Whether types compare with the others, and those that are not the same do so alike.
    fn compare_whole(&self, how: Comparison, ones: &[PackedType], others: &[PackedType]) -> bool
        requires long { length ones.now ≡ length others.now }
        requires some { 0 < length others.now }
        ensures { IsTrue result → IsTrue (pairwise_test (compared self.now how) ones.now others.now) }
    {
        let last = others.len() - 1;
        if ones[last] == others[last] && are_same(ones, others) {
            return true;
        }
        match last_unlike(ones, others) {
            Some(pair) => {
                self.compares(how, pair.one, pair.other) && are_alike(&pair, ones, others)
            }
            None => false,
        }
    }

    /// Whether types compare with others, each with the one at its place, and they are as many.
    pub(crate) fn compare_rows(
        &self,
        how: Comparison,
        ones: &[PackedType],
        others: &[PackedType],
    ) -> bool
        ensures { result ≡ pairwise_test (compared self.now how) ones.now others.now }
    {
        if ones.len() != others.len() {
            return false;
        }
        if ones.len() >= WIDE && self.compare_whole(how, ones, others) {
            return true;
        }
        self.compare_each(how, ones, others)
    }
}
