//! Tables.
ghost use Rattle.std.specs.Prelude.{◌≡◌, ◌≢◌, ◌≤◌, ◌<◌, length, IfOk, OnErr};
ghost use Rattle.w_tables.specs.Elements.{copied, table_limit};
ghost use Rattle.w_tables.specs.Operations as op;
ghost use Rattle.w_tables.specs.Operations.{elements_at, with_elements_at};
ghost use Rattle.w_tables.specs.Outcomes.{outcome};

use crate::elements::{copy_from, copy_within, fill, grow, replace};
use crate::store::{Store, Table};
use std::alloc::AllocError;
use w_types::Value;

// Copies elements of one table to another.
fn copy_between(
    tables: &mut [Table],
    dst: usize,
    src: usize,
    to: u32,
    from: u32,
    n: u32,
) -> Option<()>
    requires target { dst < length tables.old }
    requires source { src < length tables.old }
    requires apart { dst ≢ src }
    ensures left { outcome tables.old (with_elements_at tables.old dst) (copied (elements_at tables.old dst) (elements_at tables.old src) to from n) ≡ (result, tables.new) }
{
    if dst < src {
        let (front, back) = tables.split_at_mut(src);
        let target = &mut front[dst];
        let source = &back[0];
        return copy_from(
            target.elements.as_mut_slice(),
            source.elements.as_slice(),
            to,
            from,
            n,
        );
    }
    let (front, back) = tables.split_at_mut(dst);
    let target = &mut back[0];
    let source = &front[src];
    copy_from(
        target.elements.as_mut_slice(),
        source.elements.as_slice(),
        to,
        from,
        n,
    )
}

impl Store {
    /// How many elements the table at an address has, at most 1,048,576 (Core, execution, `table.size`).
    #[inline]
    pub fn table_size(&self, t: u32) -> u32
        requires table { t < length self.now.tables }
        ensures size { result ≡ op.table_size self.now t }
        ensures bounded { result ≤ table_limit }
    {
        let table = &self.tables[t as usize];
        table.elements.len() as u32
    }

    /// An element of the table at an address (Core, execution, `table.get`). `None`, a trap, exactly past the end.
    #[inline]
    pub fn table_get(&self, t: u32, at: u32) -> Option<Value>
        requires table { t < length self.now.tables }
        ensures element { result ≡ op.table_get self.now t at }
    {
        let table = &self.tables[t as usize];
        table.elements.get(at as usize).copied()
    }

    /// Sets an element of the table at an address (Core, execution, `table.set`). `None`, a trap, exactly past the end, and then nothing
    /// changed.
    #[inline]
    #[tactic(auto, unfolding(crate::specs::Operations::table_set))]
    pub fn table_set(&mut self, t: u32, at: u32, v: Value) -> Option<()>
        requires table { t < length self.old.tables }
        ensures outcome { op.table_set self.old t at v ≡ (result, self.new) }
    {
        let table = &mut self.tables[t as usize];
        replace(table.elements.as_mut_slice(), at, v)
    }

    /// Writes one value `n` times from `at` on (Core, execution, `table.fill`). `None`, a trap, exactly where they pass the end, also
    /// for `n` = 0, and then nothing changed.
    #[tactic(auto, unfolding(crate::specs::Operations::table_fill))]
    pub fn table_fill(&mut self, t: u32, at: u32, v: Value, n: u32) -> Option<()>
        requires table { t < length self.old.tables }
        ensures outcome { op.table_fill self.old t at v n ≡ (result, self.new) }
    {
        let table = &mut self.tables[t as usize];
        fill(table.elements.as_mut_slice(), at, v, n)
    }

    /// Copies the `n` elements of the table `src` that stand from `from` on, as they were before, to `to` of the table `dst` (Core,
    /// execution, `table.copy`). `None`, a trap, exactly where either range passes the end of its table, also for `n` = 0, and then
    /// nothing changed.
    #[tactic(auto, unfolding(crate::specs::Operations::table_copy))]
    pub fn table_copy(&mut self, dst: u32, src: u32, to: u32, from: u32, n: u32) -> Option<()>
        requires target { dst < length self.old.tables }
        requires source { src < length self.old.tables }
        ensures outcome { op.table_copy self.old dst src to from n ≡ (result, self.new) }
    {
        if dst == src {
            let table = &mut self.tables[dst as usize];
            return copy_within(table.elements.as_mut_slice(), to, from, n);
        }
        copy_between(
            self.tables.as_mut_slice(),
            dst as usize,
            src as usize,
            to,
            from,
            n,
        )
    }

    /// Copies the `n` elements of an element segment that stand from `from` on to `to` (Core, execution, `table.init`). `None`, a trap,
    /// exactly where they pass the segment's end or the table's, also for `n` = 0, and then nothing changed.
    #[tactic(auto, unfolding(crate::specs::Operations::table_init))]
    pub fn table_init(&mut self, t: u32, elem: u32, to: u32, from: u32, n: u32) -> Option<()>
        requires table { t < length self.old.tables }
        requires segment { elem < length self.old.elems }
        ensures outcome { op.table_init self.old t elem to from n ≡ (result, self.new) }
    {
        let segment = &self.elems[elem as usize];
        let table = &mut self.tables[t as usize];
        copy_from(
            table.elements.as_mut_slice(),
            segment.items.as_slice(),
            to,
            from,
            n,
        )
    }

    /// Adds `n` elements, each `v`, and answers the size before; or answers -1 and changes nothing, exactly where the sum passes the
    /// maximum or 1,048,576 (Core, execution, `table.grow`). For want of memory it fails and changes nothing.
    #[tactic(auto, unfolding(crate::specs::Operations::table_grow))]
    pub fn table_grow(&mut self, t: u32, v: Value, n: u32) -> Result<i32, AllocError>
        requires table { t < length self.old.tables }
        ensures grown { IfOk result (λ answer. op.table_grow self.old t v n ≡ (answer, self.new)) }
        ensures err { OnErr result (self.new ≡ self.old) }
    {
        let table = &mut self.tables[t as usize];
        grow(&mut table.elements, table.max, v, n)
    }
}
