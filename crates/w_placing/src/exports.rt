//! Exports of files, found by the names of files and exports (Core, modules, exports).
ghost use Rattle.std.specs.Prelude.{◌≡◌, IfOk, List, option_map, string_bytes};
ghost use Rattle.w_linked.specs.Imports as linked;
ghost use Rattle.w_placing.specs.Addresses.{stands};
ghost use Rattle.w_placing.specs.Exports.{Finds};
ghost use Rattle.w_placing.specs.Files.{AreFiles};

use crate::address::{Address, address_of};
use std::alloc::{AllocError, Global};
use std::collections::BTreeMap;
use std::marker::Model;
use w_resolve::ModuleInstance;
use w_syntax::{Export, ExternIndex};

/// The exports of a file, by name. Contracts see them as they stand in the file.
#[derive(Drop)]
pub(crate) struct Exports<'a> {
    all: &'a [Export],
    first: BTreeMap<&'a [u8], ExternIndex>,
}

impl<'a> Model for Exports<'a> {
    ghost use Rattle.std.specs.Prelude.{List};
    ghost use Rattle.w_syntax.specs.declared.module.Export.{Export};
    ghost use Rattle.w_placing.specs.Exports.{Finds};

    ghost Value = { List Export };

    ghost use Rattle.std.specs.Coded.{coded_list};
    ghost use Rattle.w_syntax.specs.contracts.module.Export as export_contract;

    ghost coded = { coded_list export_contract.the_row.coded };

    ghost view = { λ a. a.all.now };

    ghost invariant = { λ a. Finds a.first a.all.now };
}

/// A file that is placed: its name, what it exports, and its instance.
#[derive(Drop)]
pub(crate) struct File<'a> {
    pub name: String,
    pub exports: Exports<'a>,
    pub instance: ModuleInstance,
}

// The first export of each name.
fn first_exports<'a>(
    alloc: Global,
    all: &'a [Export],
) -> Result<BTreeMap<&'a [u8], ExternIndex>, AllocError>
    ensures finds { IfOk result (λ first. Finds first all.now) }
{
    let mut first = BTreeMap::new(alloc);
    for behind in 0..all.len() {
        let export = &all[all.len() - 1 - behind];
        first.insert(export.name.as_str().as_bytes(), export.index)?;
    }
    Ok(first)
}

/// The name of a file: `m`, and its number.
pub(crate) fn file_name(alloc: Global, number: usize) -> Result<String, AllocError>
    ensures { IfOk result (λ name. string_bytes name ≡ linked.file_name number) }
{
    format!(in alloc; "m{number}")
}

impl<'a> Exports<'a> {
    ghost use Rattle.std.specs.Prelude.{◌≡◌, IfOk};
    ghost use Rattle.w_placing.specs.Exports.{index_named};

    /// Those of a file. It fails only for want of memory.
    pub(crate) fn new(alloc: Global, all: &'a [Export]) -> Result<Exports<'a>, AllocError>
        ensures value { IfOk result (λ exports. exports ≡ all.now) }
    {
        let first = first_exports(alloc, all)?;
        Ok(Exports { all, first })
    }

    // What is exported under a name.
    fn find(&self, name: &'a str) -> Option<ExternIndex>
        ensures value { result ≡ index_named self.now name.now }
    {
        self.first.get(&name.as_bytes()).copied()
    }
}

// The address of the export of this name.
fn exported_in<'a>(file: &File<'a>, name: &'a str) -> Option<Address>
    ensures { option_map stands result ≡ linked.exported_in file.now.instance file.now.exports name.now }
{
    match file.exports.find(name) {
        Some(index) => Some(address_of(&file.instance, index)),
        None => None,
    }
}

/// The address of the export of this name of the file of this name, among these.
pub(crate) fn exported<'a>(
    files: &[File<'a>],
    module_name: &'a str,
    item_name: &'a str,
) -> Option<Address>
    ensures { (ps : List linked.Placed) → AreFiles 0 files.now ps → option_map stands result ≡ linked.exported 0 ps module_name.now item_name.now }
{
    for file in files {
        if module_name == file.name.as_str() {
            return exported_in(file, item_name);
        }
    }
    None
}
