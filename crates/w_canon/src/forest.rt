//! Spans of the nodes of a forest.
ghost use Rattle.std.specs.Prelude.{◌≡◌, ◌<◌, ◌+◌, ◌^◌, ◌++◌, ◌∷◌, [], suc, IfOk, length, replicate};
ghost use Rattle.w_canon.specs.Forest.{IsForest, AreSpans, span_test};
ghost use Rattle.w_canon.specs.Shares.{AreShared, AreSpansBelow};

use std::alloc::{AllocError, Global};

/// The places of a node and of all nodes under it, in an order in which they stand one behind the other: from one on, up to another that
/// is not among them.
#[derive(Clone, Copy, Debug, PartialEq, Eq)]
pub struct Span {
    pub from: usize,
    pub to: usize,
}

// Of each node how many nodes stand under it, as far as they were counted, and how many of them stand before it under its parent; and how
// many nodes were counted in all.
#[derive(Drop)]
struct Shares {
    under: Vec<usize>,
    offsets: Vec<usize>,
    roots: usize,
}

// So many zeros.
fn zeros(alloc: Global, count: usize) -> Result<Vec<usize>, AllocError>
    ensures { IfOk result (λ list. list.items ≡ replicate count 0) }
{
    let mut list = Vec::new(alloc);
    for _index in 0..count {
        list.push(0)?;
    }
    Ok(list)
}

// Counts a node, and those under it, among those of its parent, or among all; those behind it were counted.
fn share_one(shares: &mut Shares, parents: &[Option<usize>], node: usize)
    requires forest { IsForest parents.now }
    requires there { node < length parents.now }
    requires shared { AreShared parents.now shares.old.under.items shares.old.offsets.items shares.old.roots (suc node) }
    ensures { AreShared parents.now shares.new.under.items shares.new.offsets.items shares.new.roots node }
{
    let size = shares.under[node] + 1;
    let slot = parents[node];
    match slot {
        Some(parent) => {
            let before = shares.under[parent];
            shares.offsets[node] = before;
            shares.under[parent] = before + size;
        }
        None => {
            let before = shares.roots;
            shares.offsets[node] = before;
            shares.roots = before + size;
        }
    }
}

// Counts all nodes.
fn shares_of(alloc: Global, parents: &[Option<usize>]) -> Result<Shares, AllocError>
    requires { IsForest parents.now }
    ensures { IfOk result (λ shares. AreShared parents.now shares.under.items shares.offsets.items shares.roots 0) }
{
    let under = zeros(alloc, parents.len())?;
    let offsets = zeros(alloc, parents.len())?;
    let mut shares = Shares {
        under,
        offsets,
        roots: 0,
    };
    let mut node = parents.len();
    while node > 0 {
        node -= 1;
        share_one(&mut shares, parents, node);
    }
    Ok(shares)
}

// The span of a node at this place, with so many nodes under it.
fn span_at(from: usize, under: usize) -> Span
    requires { from + under + 1 < 2 ^ 64 }
    ensures from { result.from ≡ from }
    ensures to { result.to ≡ from + under + 1 }
{
    Span {
        from,
        to: from + under + 1,
    }
}

// The span of the next node, by that of its parent.
fn span_of(shares: &Shares, spans: &[Span], parents: &[Option<usize>], node: usize) -> Span
    requires forest { IsForest parents.now }
    requires there { node < length parents.now }
    requires shared { AreShared parents.now shares.now.under.items shares.now.offsets.items shares.now.roots 0 }
    requires before { AreSpansBelow parents.now shares.now.under.items shares.now.offsets.items spans.now node }
    ensures { AreSpansBelow parents.now shares.now.under.items shares.now.offsets.items (spans.now ++ result ∷ []) (suc node) }
{
    let (offset, under) = (shares.offsets[node], shares.under[node]);
    match parents[node] {
        Some(parent) => span_at(spans[parent].from + 1 + offset, under),
        None => span_at(offset, under),
    }
}

/// The spans of the nodes of a forest, whose parents are these. It fails only for want of memory.
pub fn spans_of(alloc: Global, parents: &[Option<usize>]) -> Result<Vec<Span>, AllocError>
    requires { IsForest parents.now }
    ensures { IfOk result (λ spans. AreSpans parents.now spans.items) }
{
    let shares = shares_of(alloc, parents)?;
    let mut spans = Vec::new(alloc);
    for node in 0..parents.len() {
        let span = span_of(&shares, spans.as_slice(), parents, node);
        spans.push(span)?;
    }
    Ok(spans)
}

/// Whether a node stands under another or is it, by their spans.
pub fn is_under(node: Span, other: Span) -> bool
    ensures { result ≡ span_test node other }
{
    other.from <= node.from && node.from < other.to
}
