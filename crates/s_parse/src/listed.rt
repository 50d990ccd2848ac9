//! Lists with commas between, in parentheses. Expressions, which lead back to such lists, have one of their own (`s_expr`).
ghost use Rattle.std.specs.Prelude.{◌≡◌, ℕ, ◌≤◌, List, length, drop};
ghost use Rattle.s_syntax.specs.declared.token.Kind.TheVariants as kind;
ghost use Rattle.s_grammar.specs.Reading.{Reading, inside};
ghost use Rattle.s_grammar.specs.Reads.{in_parentheses, listed, led};
ghost use Rattle.s_expr.specs.Places.{ReadsAt};
ghost use Rattle.s_parse.specs.BehindCommas.{TakesToken};

use lists::ListOf;
use s_expr::{Source, Stop, expect, is_kind, kind_at};
use s_syntax::Kind;

/// What lists with commas hold.
pub(crate) trait Item: Drop {
    /// How an item is read from the tokens of these bytes.
    ghost reading: { List ℕ → Reading Self };

    /// An item.
    fn read(source: &Source, at: usize) -> Result<(Self, usize), Stop>
        requires within { at ≤ length source.now.tokens.now }
        ensures reads { ReadsAt (reading source.now.bytes.now) source.now.tokens.now at result };

    /// An item behind a comma takes a token, so that reading a list ends.
    ghost takes: { (bytes : List ℕ) → TakesToken (led kind.Comma (reading bytes)) };
}

// A comma, and an item.
#[tactic(auto, unfolding(s_grammar::specs::Reads::led))]
fn comma_item_at<T: Item>(source: &Source, at: usize) -> Result<(T, usize), Stop>
    requires within { at ≤ length source.now.tokens.now }
    ensures reads { ReadsAt (led kind.Comma (T.reading source.now.bytes.now)) source.now.tokens.now at result }
{
    let (_, at) = expect(source, at, Kind::Comma)?;
    T::read(source, at)
}

// Items with commas between, up to the parenthesis.
fn items_at<T: Item>(source: &Source, start: usize) -> Result<(ListOf<T>, usize), Stop>
    requires within { start ≤ length source.now.tokens.now }
    ensures reads { ReadsAt (listed (T.reading source.now.bytes.now)) source.now.tokens.now start result }
{
    let mut items = ListOf::new(source.alloc);
    if is_kind(Kind::CloseParenthesis, kind_at(source, start)) {
        return Ok((items, start));
    }
    let (first, mut at) = T::read(source, start)?;
    items.push(first)?;
    'items: while is_kind(Kind::Comma, kind_at(source, at)) {
        let (item, next) = comma_item_at::<T>(source, at)?;
        items.push(item)?;
        at = next;
    }
    Ok((items, at))
}

/// Items with commas between, in parentheses.
pub(crate) fn list_at<T: Item>(
    source: &Source,
    at: usize,
    nest: usize,
) -> Result<(ListOf<T>, usize), Stop>
    requires within { at ≤ length source.now.tokens.now }
    ensures reads { ReadsAt (in_parentheses (inside (λ _. listed (T.reading source.now.bytes.now)) nest)) source.now.tokens.now at result }
{
    let (_, inside) = expect(source, at, Kind::OpenParenthesis)?;
    if nest == 0 {
        return Err(Stop::TooDeep(at));
    }
    let (items, end) = items_at::<T>(source, inside)?;
    let (_, end) = expect(source, end, Kind::CloseParenthesis)?;
    Ok((items, end))
}
