//! Allocation of what asks for no value: functions, memories, tags and data segments (Core, execution, instantiation).
ghost use Rattle.std.specs.Prelude.{◌≡◌, ◌<◌, ◌^◌, IfSome, OnOk, None, map};
ghost use Rattle.w_memory.specs.Memory.{fresh};
ghost use Rattle.w_tables.specs.declared.entries.FuncEntry.TheVariants as function;
ghost use Rattle.w_syntax.specs.declared.module.Data.{Data as TheData};
ghost use Rattle.w_syntax.specs.declared.module.Limits.{Limits as TheLimits};
ghost use Rattle.w_syntax.specs.declared.module.Tag.{Tag as TheTag};
ghost use Rattle.w_rules.specs.Sound.{Sound};
ghost use Rattle.w_reduce.specs.Start.{own, exceeded};
ghost use Rattle.w_stands.specs.Values.{store_of};
ghost use Rattle.w_inst.specs.Adding.{with_functions, with_memories, with_tags, with_datas};

use std::alloc::{AllocError, Global};
use w_memory::Mem;
use w_syntax::{Data, Limits, Module, Tag};
use w_tables::{FuncEntry, Printer, Store};

/// Adds the functions of the host.
pub(crate) fn add_printers(store: &mut Store, printers: &[Printer]) -> Result<(), AllocError>
    ensures added { OnOk result (store_of store.new ≡ with_functions (store_of store.old) (map function.Printer printers.now)) }
{
    for printer in printers {
        store.add_function(FuncEntry::Printer(*printer))?;
    }
    Ok(())
}

/// Adds the module's own functions, so many.
pub(crate) fn add_own(store: &mut Store, count: usize) -> Result<(), AllocError>
    ensures added { OnOk result (store_of store.new ≡ with_functions (store_of store.old) (own count)) }
{
    for index in 0..count {
        let Ok(function) = u32::try_from(index) else {
            return Err(AllocError);
        };
        store.add_function(FuncEntry::Own(function))?;
    }
    Ok(())
}

/// A maximum in 32 bits.
pub(crate) fn narrowed(max: Option<u64>) -> Option<u32>
    requires { IfSome max (λ n. n < 2 ^ 32) }
    ensures { result ≡ max }
{
    match max {
        Some(max) => Some(max as u32),
        None => None,
    }
}

/// Adds the memories, each of zeros.
pub(crate) fn add_memories(
    alloc: Global,
    store: &mut Store,
    program: &Module,
) -> Result<(), AllocError>
    requires within { exceeded program.now ≡ None }
    requires sound { Sound program.now }
    ensures added { OnOk result (store_of store.new ≡ with_memories (store_of store.old) (map (λ (l : TheLimits). fresh l.min l.max) program.now.memories)) }
{
    for limits in program.memories.as_slice() {
        let memory = Mem::new(alloc, limits.min as u32, narrowed(limits.max))?;
        store.add_memory(memory)?;
    }
    Ok(())
}

/// Adds the tags.
pub(crate) fn add_tags(store: &mut Store, tags: &[Tag]) -> Result<(), AllocError>
    ensures added { OnOk result (store_of store.new ≡ with_tags (store_of store.old) (map (λ (t : TheTag). t.type_index) tags.now)) }
{
    for tag in tags {
        store.add_tag(tag.type_index)?;
    }
    Ok(())
}

/// Adds the data segments.
pub(crate) fn add_datas(alloc: Global, store: &mut Store, datas: &[Data]) -> Result<(), AllocError>
    ensures added { OnOk result (store_of store.new ≡ with_datas (store_of store.old) (map (λ (d : TheData). d.bytes) datas.now)) }
{
    for data in datas {
        let bytes = Vec::from_slice(alloc, data.bytes.as_slice())?;
        store.add_bytes(bytes)?;
    }
    Ok(())
}
