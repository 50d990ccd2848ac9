//! Addresses of what files define (Core, execution, addresses).
ghost use Rattle.std.specs.Prelude.{◌≡◌, ◌++◌, option_to_list, OnOk};
ghost use Rattle.w_linked.specs.Imports as linked;
ghost use Rattle.w_placing.specs.Addresses.{stands, of_kind, numbers_of};

use std::alloc::AllocError;
use w_resolve::ModuleInstance;
use w_syntax::ExternIndex;

/// What stands at an address among all files' (Core, execution, external values).
#[derive(Clone, Copy)]
pub(crate) enum Address {
    Function(u32),
    Table(u32),
    Memory(u32),
    Global(u32),
    Tag(u32),
}

/// The kind of what stands at an address.
#[derive(Clone, Copy)]
pub(crate) enum AddressKind {
    Function,
    Table,
    Memory,
    Global,
    Tag,
}

/// The address of what an instance exports (Core, execution, export instances).
pub(crate) fn address_of(instance: &ModuleInstance, index: ExternIndex) -> Address
    ensures { stands result ≡ linked.address_of instance.now index }
{
    match index {
        ExternIndex::Func(function) => Address::Function(instance.function(function)),
        ExternIndex::Table(table) => Address::Table(instance.table(table)),
        ExternIndex::Memory(memory) => Address::Memory(instance.memory(memory)),
        ExternIndex::Global(global) => Address::Global(instance.global(global)),
        ExternIndex::Tag(tag) => Address::Tag(instance.tag(tag)),
    }
}

// The number of an address, where it is of this kind.
fn number_of(address: Address, kind: AddressKind) -> Option<u32>
    ensures { option_to_list result ≡ of_kind kind address }
{
    match (kind, address) {
        (AddressKind::Function, Address::Function(number)) => Some(number),
        (AddressKind::Table, Address::Table(number)) => Some(number),
        (AddressKind::Memory, Address::Memory(number)) => Some(number),
        (AddressKind::Global, Address::Global(number)) => Some(number),
        (AddressKind::Tag, Address::Tag(number)) => Some(number),
        _ => None,
    }
}

/// Adds the numbers of the addresses of this kind.
pub(crate) fn push_numbers(
    found: &[Address],
    kind: AddressKind,
    all: &mut Vec<u32>,
) -> Result<(), AllocError>
    ensures { OnOk result (all.new.items ≡ all.old.items ++ numbers_of kind found.now) }
{
    for address in found {
        if let Some(number) = number_of(*address, kind) {
            all.push(number)?;
        }
    }
    Ok(())
}
