//! How many of each kind the files before define (Core, execution, allocation of modules).
ghost use Rattle.std.specs.Prelude.{◌≡◌, ◌+◌, IfOk};
ghost use Rattle.w_linked.specs.Linked.{at_first, and_file};
ghost use Rattle.w_placing.specs.Counting.{counts};

use std::alloc::AllocError;
use w_resolve::shifted;
use w_syntax::Module;

/// How many of each the files before define, and how many functions of the host they name. Functions are counted behind all those of the
/// host.
#[derive(Clone, Copy)]
pub(crate) struct Before {
    pub types: u32,
    pub printers: u32,
    pub functions: u32,
    pub tables: u32,
    pub memories: u32,
    pub globals: u32,
    pub tags: u32,
    pub elements: u32,
    pub datas: u32,
}

/// So many more. 2^32 or more are want of memory.
pub(crate) fn counted(before: u32, count: usize) -> Result<u32, AllocError>
    ensures { IfOk result (λ n. n ≡ before + count) }
{
    match u32::try_from(count) {
        Ok(count) => shifted(before, count),
        Err(_) => Err(AllocError),
    }
}

impl Before {
    /// Before the first file; its functions come behind all those of the host.
    pub(crate) fn at_first(hosts: u32) -> Before
        ensures { counts result ≡ at_first hosts }
    {
        Before {
            types: 0,
            printers: 0,
            functions: hosts,
            tables: 0,
            memories: 0,
            globals: 0,
            tags: 0,
            elements: 0,
            datas: 0,
        }
    }

    /// Behind a file more, where so many functions of the host are named then. Counts of 2^32 or more are want of memory.
    pub(crate) fn and_file(&self, printers: u32, module: &Module) -> Result<Before, AllocError>
        ensures { IfOk result (λ b. counts b ≡ and_file (counts self.now) printers module.now) }
    {
        Ok(Before {
            types: counted(self.types, module.types.type_count())?,
            printers,
            functions: counted(self.functions, module.functions.len())?,
            tables: counted(self.tables, module.tables.len())?,
            memories: counted(self.memories, module.memories.len())?,
            globals: counted(self.globals, module.globals.len())?,
            tags: counted(self.tags, module.tags.len())?,
            elements: counted(self.elements, module.elements.len())?,
            datas: counted(self.datas, module.datas.len())?,
        })
    }
}
