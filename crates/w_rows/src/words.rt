//! Words that tell which types match.
ghost use Rattle.std.specs.Prelude.{◌≡◌, ◌+◌, ◌*◌, ◌-◌, ◌<◌, IsTrue, IfSome, slice_get};
ghost use Rattle.w_canon.specs.Tests.{kind_test};
ghost use Rattle.w_rows.specs.Words.{joined as the_joined, given_class as the_given_class, wanted_class as the_wanted_class, given_word as the_given_word, wanted_word as the_wanted_word, begins_test, most_classes, IsGiven, IsWanted, IsLength};

use w_canon::{Classes, Kind};
use w_types::{HeapType, PackedType, ValType};

// So many classes have bits of their own.
const MOST_CLASSES: usize = 16384;

// The words of each kind where it is given, with no class; those below 3 are of no value type.
static GIVEN: [u32; 15] = [
    262140, 262140, 262140, 262140, 524268, 4294967290, 4294967291, 10, 11, 4294967286, 4294967287,
    6, 7, 4294967294, 4294967295,
];

// The words of each kind where it is wanted, with no class.
static WANTED: [u32; 15] = [
    4294705154, 4294705154, 4294705154, 4294705154, 4294443026, 5, 4, 4294967285, 4294967284, 9, 8,
    4294967289, 4294967288, 4294967295, 4294967294,
];

/// The word of a type where it is given, which tells no class: a concrete type seems to match nothing.
#[tactic(auto, using(w_canon::proofs::ShapesOfTypes::kind_below, crate::proofs::WordsOfKinds::given_at))]
#[inline(always)]
pub(crate) fn given_alone(kind: PackedType) -> u32
    ensures { result ≡ the_given_word kind }
{
    GIVEN[kind.kind() as usize]
}

// The word of a type where it is wanted, which tells no class.
#[tactic(auto, using(w_canon::proofs::ShapesOfTypes::kind_below, crate::proofs::WordsOfKinds::wanted_at))]
fn wanted_alone(kind: PackedType) -> u32
    ensures { result ≡ the_wanted_word kind }
{
    WANTED[kind.kind() as usize]
}

// The bits of a class, a mark and whether it may be null, as one word.
fn joined(classes: u32, mark: u32, null: u32) -> u32
    requires classes { classes < 268435456 }
    requires mark { mark < 8 }
    requires null { null < 2 }
    ensures { result ≡ the_joined classes mark null }
{
    (classes * 8 + mark) * 2 + null
}

// The bits of a class where it is given.
fn given_class(class: u32) -> u32
    requires { class < most_classes }
    ensures is { result ≡ the_given_class class }
    ensures below { result < 268435456 }
{
    class * 16384 + (16383 - class)
}

// The bits of a class where it is wanted.
fn wanted_class(class: u32) -> u32
    requires { class < most_classes }
    ensures is { result ≡ the_wanted_class class }
    ensures below { result < 268435456 }
{
    (16383 - class) * 16384 + class
}

// The kind of the type of this index, and where the span of its class begins, where that has bits of its own.
fn numbered(classes: &Classes, index: u32) -> Option<(Kind, u32)>
    ensures begins { IfSome result (λ p. IsTrue (begins_test (slice_get classes.now index) p.1)) }
    ensures kind { IfSome result (λ p. IsTrue (kind_test classes.now index p.0)) }
    ensures below { IfSome result (λ p. p.1 < most_classes) }
{
    let entry = classes.entry(index)?;
    let from = entry.span.from;
    if from < MOST_CLASSES {
        Some((entry.kind, from as u32))
    } else {
        None
    }
}

/// How long the span is of the class of the type that this one names: how many classes stand under it, itself counted. It is 0 where
/// none is named. Where it begins is told by the word where the type is wanted.
pub(crate) fn span_length(classes: &Classes, kind: PackedType) -> u32
    ensures { IsLength classes.now kind result }
{
    if kind.kind() < 13 {
        return 0;
    }
    match classes.entry(kind.index()) {
        Some(entry) if entry.span.to < MOST_CLASSES => { (entry.span.to - entry.span.from) as u32 }
        _ => 0,
    }
}

/// The word of a type where it is given (Core, validation, matching).
#[tactic(auto, using(crate::proofs::WordsGiven::given_alone, crate::proofs::WordsGiven::given_func, crate::proofs::WordsGiven::given_cont))]
pub(crate) fn given_word(classes: &Classes, kind: PackedType) -> u32
    ensures { IsGiven classes.now kind result }
{
    let ValType::Ref(reference) = kind.whole() else {
        return given_alone(kind);
    };
    let HeapType::Index(index) = reference.heap else {
        return given_alone(kind);
    };
    let null = u32::from(reference.nullable);
    match numbered(classes, index) {
        Some((Kind::Func, class)) => joined(given_class(class), 5, null),
        Some((Kind::Cont, class)) => joined(given_class(class), 3, null),
        None => given_alone(kind),
    }
}

/// The word of a type where it is wanted (Core, validation, matching).
#[tactic(auto, using(crate::proofs::WordsGiven::wanted_alone, crate::proofs::WordsGiven::wanted_func, crate::proofs::WordsGiven::wanted_cont))]
pub(crate) fn wanted_word(classes: &Classes, kind: PackedType) -> u32
    ensures { IsWanted classes.now kind result }
{
    let ValType::Ref(reference) = kind.whole() else {
        return wanted_alone(kind);
    };
    let HeapType::Index(index) = reference.heap else {
        return wanted_alone(kind);
    };
    let null = u32::from(!reference.nullable);
    match numbered(classes, index) {
        Some((Kind::Func, class)) => joined(wanted_class(class), 2, null),
        Some((Kind::Cont, class)) => joined(wanted_class(class), 4, null),
        None => wanted_alone(kind),
    }
}
