//! The limits of memories and tables where a run begins.
ghost use Rattle.std.specs.Prelude.{◌≡◌, map};
ghost use Rattle.w_memory.specs.Memory.{page_limit};
ghost use Rattle.w_tables.specs.Elements.{table_limit};
ghost use Rattle.w_syntax.specs.declared.module.Limits.{Limits as TheLimits};
ghost use Rattle.w_syntax.specs.declared.module.Table.{Table as TheTable};
ghost use Rattle.w_reduce.specs.Start as start;

use w_reduce::StartLimit;
use w_syntax::{Limits, Module, Table};

// No memory has more pages.
const PAGE_LIMIT: u64 = 256;

// No table has more elements.
const TABLE_LIMIT: u64 = 1_048_576;

// Whether no memory begins with more pages than there may be.
fn are_memories_within(memories: &[Limits]) -> bool
    ensures { result ≡ start.none_above page_limit (map (λ (l : TheLimits). l.min) memories.now) }
{
    for limits in memories {
        if limits.min > PAGE_LIMIT {
            return false;
        }
    }
    true
}

// Whether no table begins with more elements than there may be.
fn are_tables_within(tables: &[Table]) -> bool
    ensures { result ≡ start.none_above table_limit (map (λ (t : TheTable). t.kind.limits.min) tables.now) }
{
    for table in tables {
        if table.kind.limits.min > TABLE_LIMIT {
            return false;
        }
    }
    true
}

/// The limit that a module passes at first, memories before tables (Core, appendix, implementation limitations).
pub fn exceeded(program: &Module) -> Option<StartLimit>
    ensures { result ≡ start.exceeded program.now }
{
    if !are_memories_within(program.memories.as_slice()) {
        return Some(StartLimit::Memory);
    }
    if !are_tables_within(program.tables.as_slice()) {
        return Some(StartLimit::Table);
    }
    None
}
