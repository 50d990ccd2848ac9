//! Instructions that hold no others, and the types of blocks.
ghost use Rattle.w_encode.specs.InstructionsWritten.{control_written, parametric_written, variable_written, table_op_written, reference_written, clause_written, switching_written, op_written, blocktype_written};

use crate::memory::{put_one, put_two};
use crate::put::{Put, put_index, put_vec};
use std::alloc::AllocError;
use w_syntax::{
    BlockType, Clause, ControlOp, Op, ParametricOp, ReferenceOp, SwitchingOp, TableOp, VariableOp,
};

impl Put for ControlOp {
    ghost written = { control_written };

    fn put(&self, out: &mut Vec<u8>) -> Result<(), AllocError> {
        match self {
            ControlOp::Unreachable => out.push(0x00)?,
            ControlOp::Nop => out.push(0x01)?,
            ControlOp::Br(label) => put_one(&[0x0C], *label, out)?,
            ControlOp::BrIf(label) => put_one(&[0x0D], *label, out)?,
            ControlOp::BrTable(labels, otherwise) => {
                out.push(0x0E)?;
                put_vec(labels.as_slice(), out)?;
                otherwise.put(out)?;
            }
            ControlOp::Return => out.push(0x0F)?,
            ControlOp::Call(function) => put_one(&[0x10], *function, out)?,
            ControlOp::CallIndirect(kind, table) => put_two(&[0x11], *kind, *table, out)?,
            ControlOp::ReturnCall(function) => put_one(&[0x12], *function, out)?,
            ControlOp::ReturnCallIndirect(kind, table) => put_two(&[0x13], *kind, *table, out)?,
            ControlOp::CallRef(kind) => put_one(&[0x14], *kind, out)?,
            ControlOp::ReturnCallRef(kind) => put_one(&[0x15], *kind, out)?,
            ControlOp::BrOnNull(label) => put_one(&[0xD5], *label, out)?,
            ControlOp::BrOnNonNull(label) => put_one(&[0xD6], *label, out)?,
        }
        Ok(())
    }
}

impl Put for ParametricOp {
    ghost written = { parametric_written };

    fn put(&self, out: &mut Vec<u8>) -> Result<(), AllocError> {
        match self {
            ParametricOp::Drop => out.push(0x1A)?,
            ParametricOp::Select => out.push(0x1B)?,
            ParametricOp::SelectOf(types) => {
                out.push(0x1C)?;
                put_vec(types.as_slice(), out)?;
            }
        }
        Ok(())
    }
}

impl Put for VariableOp {
    ghost written = { variable_written };

    fn put(&self, out: &mut Vec<u8>) -> Result<(), AllocError> {
        match *self {
            VariableOp::LocalGet(local) => put_one(&[0x20], local, out),
            VariableOp::LocalSet(local) => put_one(&[0x21], local, out),
            VariableOp::LocalTee(local) => put_one(&[0x22], local, out),
            VariableOp::GlobalGet(global) => put_one(&[0x23], global, out),
            VariableOp::GlobalSet(global) => put_one(&[0x24], global, out),
        }
    }
}

impl Put for TableOp {
    ghost written = { table_op_written };

    fn put(&self, out: &mut Vec<u8>) -> Result<(), AllocError> {
        match *self {
            TableOp::Get(table) => put_one(&[0x25], table, out),
            TableOp::Set(table) => put_one(&[0x26], table, out),
            TableOp::Init(segment, table) => put_two(&[0xFC, 12], segment, table, out),
            TableOp::ElemDrop(segment) => put_one(&[0xFC, 13], segment, out),
            TableOp::Copy(written, read) => put_two(&[0xFC, 14], written, read, out),
            TableOp::Grow(table) => put_one(&[0xFC, 15], table, out),
            TableOp::Size(table) => put_one(&[0xFC, 16], table, out),
            TableOp::Fill(table) => put_one(&[0xFC, 17], table, out),
        }
    }
}

impl Put for ReferenceOp {
    ghost written = { reference_written };

    fn put(&self, out: &mut Vec<u8>) -> Result<(), AllocError> {
        match *self {
            ReferenceOp::Null(heap) => {
                out.push(0xD0)?;
                heap.put(out)?;
            }
            ReferenceOp::IsNull => out.push(0xD1)?,
            ReferenceOp::Func(function) => put_one(&[0xD2], function, out)?,
            ReferenceOp::AsNonNull => out.push(0xD4)?,
        }
        Ok(())
    }
}

impl Put for Clause {
    ghost written = { clause_written };

    fn put(&self, out: &mut Vec<u8>) -> Result<(), AllocError> {
        match *self {
            Clause::Label(tag, label) => put_two(&[0x00], tag, label, out),
            Clause::Switch(tag) => put_one(&[0x01], tag, out),
        }
    }
}

impl Put for SwitchingOp {
    ghost written = { switching_written };

    fn put(&self, out: &mut Vec<u8>) -> Result<(), AllocError> {
        match self {
            SwitchingOp::ContNew(kind) => put_one(&[0xE0], *kind, out),
            SwitchingOp::ContBind(before, after) => put_two(&[0xE1], *before, *after, out),
            SwitchingOp::Suspend(tag) => put_one(&[0xE2], *tag, out),
            SwitchingOp::Resume(kind, clauses) => {
                put_one(&[0xE3], *kind, out)?;
                put_vec(clauses.as_slice(), out)
            }
            SwitchingOp::Switch(kind, tag) => put_two(&[0xE6], *kind, *tag, out),
        }
    }
}

impl Put for Op {
    ghost written = { op_written };

    fn put(&self, out: &mut Vec<u8>) -> Result<(), AllocError> {
        match self {
            Op::Control(op) => op.put(out),
            Op::Parametric(op) => op.put(out),
            Op::Variable(op) => op.put(out),
            Op::Table(op) => op.put(out),
            Op::Memory(op) => op.put(out),
            Op::Numeric(op) => op.put(out),
            Op::Reference(op) => op.put(out),
            Op::Switching(op) => op.put(out),
        }
    }
}

impl Put for BlockType {
    ghost written = { blocktype_written };

    fn put(&self, out: &mut Vec<u8>) -> Result<(), AllocError> {
        match self {
            BlockType::Empty => out.push(0x40)?,
            BlockType::Value(kind) => kind.put(out)?,
            BlockType::Index(index) => put_index(*index, out)?,
        }
        Ok(())
    }
}
