//! Writing to the elements of a table. `None`, a trap, is answered exactly where a range passes an end, and then nothing changed.
ghost use Rattle.std.specs.Prelude.{◌≡◌, ◌+◌, ◌≤◌, length, vec_len, replicate, nat_le, IfOk, OnErr};
ghost use Rattle.w_memory.specs.Parts.{part, written};
ghost use Rattle.w_tables.specs.Elements as on;
ghost use Rattle.w_tables.specs.Outcomes.{growth, outcome};

use std::alloc::AllocError;
use w_types::Value;

// No table has more elements.
const TABLE_LIMIT: u32 = 1048576;

fn fill_part(elements: &mut [Value], to: usize, v: Value, n: usize)
    requires within { to + n ≤ length elements.old }
    ensures written { elements.new ≡ written elements.old to (replicate n v) }
{
    elements[to..to + n].fill(v);
}

fn move_part(elements: &mut [Value], to: usize, from: usize, n: usize)
    requires within { to + n ≤ length elements.old }
    requires source { from + n ≤ length elements.old }
    ensures written { elements.new ≡ written elements.old to (part elements.old from n) }
{
    elements.copy_within(from..from + n, to);
}

fn copy_part(elements: &mut [Value], source: &[Value], to: usize, from: usize, n: usize)
    requires within { to + n ≤ length elements.old }
    requires source { from + n ≤ length source.now }
    ensures written { elements.new ≡ written elements.old to (part source.now from n) }
{
    elements[to..to + n].copy_from_slice(&source[from..from + n]);
}

// Whether so many elements from a place on don't pass the end of so many.
fn is_within(count: usize, at: u32, n: u32) -> bool
    ensures within { result ≡ nat_le (at + n) count }
{
    at as u64 + n as u64 <= count as u64
}

// Sets an element.
#[inline]
pub(crate) fn replace(elements: &mut [Value], at: u32, v: Value) -> Option<()>
    ensures left { outcome elements.old (λ xs. xs) (on.replaced elements.old at v) ≡ (result, elements.new) }
{
    let at = at as usize;
    if at >= elements.len() {
        return None;
    }
    elements[at] = v;
    Some(())
}

// Writes one value n times.
pub(crate) fn fill(elements: &mut [Value], to: u32, v: Value, n: u32) -> Option<()>
    ensures left { outcome elements.old (λ xs. xs) (on.filled elements.old to v n) ≡ (result, elements.new) }
{
    if !is_within(elements.len(), to, n) {
        return None;
    }
    fill_part(elements, to as usize, v, n as usize);
    Some(())
}

// Copies elements to another place among them.
pub(crate) fn copy_within(elements: &mut [Value], to: u32, from: u32, n: u32) -> Option<()>
    ensures left { outcome elements.old (λ xs. xs) (on.copied elements.old elements.old to from n) ≡ (result, elements.new) }
{
    if !is_within(elements.len(), to, n) || !is_within(elements.len(), from, n) {
        return None;
    }
    move_part(elements, to as usize, from as usize, n as usize);
    Some(())
}

// Copies elements from elsewhere.
pub(crate) fn copy_from(
    elements: &mut [Value],
    source: &[Value],
    to: u32,
    from: u32,
    n: u32,
) -> Option<()>
    ensures left { outcome elements.old (λ xs. xs) (on.copied elements.old source.now to from n) ≡ (result, elements.new) }
{
    if !is_within(elements.len(), to, n) || !is_within(source.len(), from, n) {
        return None;
    }
    copy_part(elements, source, to as usize, from as usize, n as usize);
    Some(())
}

// How many elements a table with this maximum may come to.
fn most_elements(max: Option<u32>) -> u32
    ensures most { result ≡ on.most_elements max }
{
    match max {
        Some(max) => max.min(TABLE_LIMIT),
        None => TABLE_LIMIT,
    }
}

// Adds n times this value, and answers how many elements there were; or -1 where that passes the maximum, and then nothing changed.
pub(crate) fn grow(
    elements: &mut Vec<Value>,
    max: Option<u32>,
    v: Value,
    n: u32,
) -> Result<i32, AllocError>
    requires bounded { vec_len elements.old ≤ on.table_limit }
    ensures grown { IfOk result (λ answer. growth (vec_len elements.old) elements.old.items (λ xs. xs) (on.grown elements.old.items max v n) ≡ (answer, elements.new.items)) }
    ensures bounded { vec_len elements.new ≤ on.table_limit }
    ensures err { OnErr result (elements.new.items ≡ elements.old.items) }
{
    let before = elements.len() as u32;
    let most = most_elements(max);
    if before > most || n > most - before {
        return Ok(-1);
    }
    elements.resize((before + n) as usize, v)?;
    Ok(before as i32)
}
