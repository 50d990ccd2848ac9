//! Lists that grow within their capacity, and lists of which the top is moved down.
ghost use Rattle.std.specs.Prelude.{◌≡◌, ◌+◌, ◌-◌, ◌≤◌, ◌++◌, take, drop, map, replicate, length, Some, vec_len, vec_capacity};
ghost use Rattle.w_types.specs.declared.value.Value.{Value};

use w_types::Value;

/// Puts the topmost `n` items onto the lowest `base`, and drops those between.
#[inline(always)]
pub(crate) fn keep_top(items: &mut Vec<Value>, base: usize, n: usize)
    requires fits { base + n ≤ vec_len items.old }
    ensures items { items.new.items ≡ take base items.old.items ++ drop (vec_len items.old - n) items.old.items }
    ensures capacity { vec_capacity items.new ≡ vec_capacity items.old }
{
    let from = items.len() - n;
    for i in 0..n {
        items[base + i] = items[from + i];
    }
    items.truncate(base + n);
}

/// Takes so many items off the end, where there are so many. Each is taken by itself, since most calls take one or two, which costs less
/// than to cut the list.
#[inline(always)]
pub(crate) fn take_off(items: &mut Vec<Value>, count: usize)
    requires some { count ≤ vec_len items.old }
    ensures items { items.new.items ≡ take (vec_len items.old - count) items.old.items }
    ensures capacity { vec_capacity items.new ≡ vec_capacity items.old }
{
    for _ in 0..count {
        let _taken = items.take_last();
    }
}

/// Adds operands.
pub(crate) fn push_values(operands: &mut Vec<Value>, values: &[Value])
    requires room { vec_len operands.old + length values.now ≤ vec_capacity operands.old }
    ensures items { operands.new.items ≡ operands.old.items ++ values.now }
    ensures capacity { vec_capacity operands.new ≡ vec_capacity operands.old }
{
    for value in values {
        operands.push_reserved(*value);
    }
}

/// Adds locals that are set to these values.
#[inline(always)]
pub(crate) fn push_arguments(locals: &mut Vec<Option<Value>>, arguments: &[Value])
    requires room { vec_len locals.old + length arguments.now ≤ vec_capacity locals.old }
    ensures items { locals.new.items ≡ locals.old.items ++ map (λ (v : Value). Some v) arguments.now }
    ensures capacity { vec_capacity locals.new ≡ vec_capacity locals.old }
{
    for value in arguments {
        locals.push_reserved(Some(*value));
    }
}

/// Adds so many locals with one value, or not set.
#[inline(always)]
pub(crate) fn push_copies(locals: &mut Vec<Option<Value>>, count: usize, local: Option<Value>)
    requires room { vec_len locals.old + count ≤ vec_capacity locals.old }
    ensures items { locals.new.items ≡ locals.old.items ++ replicate count local }
    ensures capacity { vec_capacity locals.new ≡ vec_capacity locals.old }
{
    for _ in 0..count {
        locals.push_reserved(local);
    }
}
