//! Types.
ghost use Rattle.w_encode.specs.TypesWritten.{heaptype_written, reftype_written, valtype_written, functype_written, comptype_written, subtype_written, rectype_written, limits_written, tabletype_written, mutability_written, globaltype_written};

use crate::put::{Put, put_index, put_vec};
use std::alloc::AllocError;
use w_syntax::{GlobalType, Limits, Mutability, TableType};
use w_types::{CompType, FuncType, HeapType, PackedType, RecGroup, RefType, SubType, ValType};

impl Put for HeapType {
    ghost written = { heaptype_written };

    fn put(&self, out: &mut Vec<u8>) -> Result<(), AllocError> {
        match *self {
            HeapType::Func => out.push(0x70)?,
            HeapType::NoFunc => out.push(0x73)?,
            HeapType::Cont => out.push(0x68)?,
            HeapType::NoCont => out.push(0x75)?,
            HeapType::Index(index) => put_index(index, out)?,
        }
        Ok(())
    }
}

impl Put for RefType {
    ghost written = { reftype_written };

    fn put(&self, out: &mut Vec<u8>) -> Result<(), AllocError> {
        match (self.nullable, self.heap) {
            (true, HeapType::Func) => out.push(0x70)?,
            (true, HeapType::NoFunc) => out.push(0x73)?,
            (true, heap) => {
                out.push(0x63)?;
                heap.put(out)?;
            }
            (false, heap) => {
                out.push(0x64)?;
                heap.put(out)?;
            }
        }
        Ok(())
    }
}

impl Put for PackedType {
    ghost written = { valtype_written };

    fn put(&self, out: &mut Vec<u8>) -> Result<(), AllocError> {
        match self.whole() {
            ValType::I32 => out.push(0x7F)?,
            ValType::I64 => out.push(0x7E)?,
            ValType::Ref(reference) => reference.put(out)?,
        }
        Ok(())
    }
}

impl Put for FuncType {
    ghost written = { functype_written };

    fn put(&self, out: &mut Vec<u8>) -> Result<(), AllocError> {
        put_vec(self.params.as_slice(), out)?;
        put_vec(self.results.as_slice(), out)
    }
}

impl Put for CompType {
    ghost written = { comptype_written };

    fn put(&self, out: &mut Vec<u8>) -> Result<(), AllocError> {
        match self {
            CompType::Func(function) => {
                out.push(0x60)?;
                function.put(out)
            }
            CompType::Cont(index) => {
                out.push(0x5D)?;
                put_index(*index, out)
            }
        }
    }
}

impl Put for SubType {
    ghost written = { subtype_written };

    fn put(&self, out: &mut Vec<u8>) -> Result<(), AllocError> {
        match (self.is_final, self.supertypes.as_slice()) {
            (true, []) => self.composite.put(out),
            (is_final, supertypes) => {
                out.push(if is_final { 0x4F } else { 0x50 })?;
                put_vec(supertypes, out)?;
                self.composite.put(out)
            }
        }
    }
}

impl Put for RecGroup {
    ghost written = { rectype_written };

    fn put(&self, out: &mut Vec<u8>) -> Result<(), AllocError> {
        match self.types.as_slice() {
            [alone] => alone.put(out),
            types => {
                out.push(0x4E)?;
                put_vec(types, out)
            }
        }
    }
}

impl Put for Limits {
    ghost written = { limits_written };

    fn put(&self, out: &mut Vec<u8>) -> Result<(), AllocError> {
        match self.max {
            None => {
                out.push(0x00)?;
                self.min.put(out)
            }
            Some(max) => {
                out.push(0x01)?;
                self.min.put(out)?;
                max.put(out)
            }
        }
    }
}

impl Put for TableType {
    ghost written = { tabletype_written };

    fn put(&self, out: &mut Vec<u8>) -> Result<(), AllocError> {
        self.element.put(out)?;
        self.limits.put(out)
    }
}

impl Put for Mutability {
    ghost written = { mutability_written };

    fn put(&self, out: &mut Vec<u8>) -> Result<(), AllocError> {
        match self {
            Mutability::Const => out.push(0x00)?,
            Mutability::Var => out.push(0x01)?,
        }
        Ok(())
    }
}

impl Put for GlobalType {
    ghost written = { globaltype_written };

    fn put(&self, out: &mut Vec<u8>) -> Result<(), AllocError> {
        self.kind.put(out)?;
        self.mutability.put(out)
    }
}
