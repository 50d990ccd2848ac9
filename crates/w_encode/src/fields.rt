//! Imports, exports, tables and globals.
ghost use Rattle.w_encode.specs.FieldsWritten.{tag_written, externtype_written, import_written, externidx_written, export_written, table_written, global_written};

use crate::memory::put_one;
use crate::put::{Put, put_bytes};
use std::alloc::AllocError;
use w_syntax::{Export, ExternIndex, ExternType, GlobalVariable, Import, Table, Tag};

impl Put for Tag {
    ghost written = { tag_written };

    fn put(&self, out: &mut Vec<u8>) -> Result<(), AllocError> {
        put_one(&[0x00], self.type_index, out)
    }
}

impl Put for ExternType {
    ghost written = { externtype_written };

    fn put(&self, out: &mut Vec<u8>) -> Result<(), AllocError> {
        match self {
            ExternType::Func(kind) => put_one(&[0x00], *kind, out),
            ExternType::Table(kind) => {
                out.push(0x01)?;
                kind.put(out)
            }
            ExternType::Memory(limits) => {
                out.push(0x02)?;
                limits.put(out)
            }
            ExternType::Global(kind) => {
                out.push(0x03)?;
                kind.put(out)
            }
            ExternType::Tag(tag) => {
                out.push(0x04)?;
                tag.put(out)
            }
        }
    }
}

impl Put for Import {
    ghost written = { import_written };

    fn put(&self, out: &mut Vec<u8>) -> Result<(), AllocError> {
        put_bytes(self.module_name.as_str().as_bytes(), out)?;
        put_bytes(self.item_name.as_str().as_bytes(), out)?;
        self.kind.put(out)
    }
}

impl Put for ExternIndex {
    ghost written = { externidx_written };

    fn put(&self, out: &mut Vec<u8>) -> Result<(), AllocError> {
        match *self {
            ExternIndex::Func(index) => put_one(&[0x00], index, out),
            ExternIndex::Table(index) => put_one(&[0x01], index, out),
            ExternIndex::Memory(index) => put_one(&[0x02], index, out),
            ExternIndex::Global(index) => put_one(&[0x03], index, out),
            ExternIndex::Tag(index) => put_one(&[0x04], index, out),
        }
    }
}

impl Put for Export {
    ghost written = { export_written };

    fn put(&self, out: &mut Vec<u8>) -> Result<(), AllocError> {
        put_bytes(self.name.as_str().as_bytes(), out)?;
        self.index.put(out)
    }
}

impl Put for Table {
    ghost written = { table_written };

    fn put(&self, out: &mut Vec<u8>) -> Result<(), AllocError> {
        match &self.init {
            None => self.kind.put(out),
            Some(init) => {
                out.extend_from_slice(&[0x40, 0x00])?;
                self.kind.put(out)?;
                init.put(out)
            }
        }
    }
}

impl Put for GlobalVariable {
    ghost written = { global_written };

    fn put(&self, out: &mut Vec<u8>) -> Result<(), AllocError> {
        self.kind.put(out)?;
        self.init.put(out)
    }
}
