//! Writing numbers, lists and what stands behind a size.
ghost use Rattle.std.specs.Prelude.{◌≡◌, ◌++◌, ℕ, length, OnOk};
ghost use Rattle.w_leb.specs.Number.{shortest, shortest_signed};
ghost use Rattle.w_leb.specs.CanonicalLaws.{vec_written};
ghost use Rattle.w_encode.specs.TypesWritten.{index_written};
ghost use Rattle.w_encode.specs.FieldsWritten.{bytes_written};

use std::alloc::AllocError;
use w_leb::{put_s33, put_s64, put_u32, put_u64};

/// What is written by a canonical spelling.
pub(crate) trait Put {
    ghost use Rattle.std.specs.Prelude.{◌≡◌, ◌++◌, List, ℕ, OnOk};

    /// Its canonical spelling.
    ghost written: { Self → List ℕ };

    /// Writes it behind the bytes so far. It fails only for want of memory.
    fn put(&self, out: &mut Vec<u8>) -> Result<(), AllocError>
        ensures { OnOk result (out.new.items ≡ out.old.items ++ written self.now) };
}

impl Put for u32 {
    ghost written = { shortest };

    fn put(&self, out: &mut Vec<u8>) -> Result<(), AllocError> {
        out.extend_from_slice(put_u32(*self).as_slice())?;
        Ok(())
    }
}

impl Put for u64 {
    ghost written = { shortest };

    fn put(&self, out: &mut Vec<u8>) -> Result<(), AllocError> {
        out.extend_from_slice(put_u64(*self).as_slice())?;
        Ok(())
    }
}

impl Put for i64 {
    ghost written = { shortest_signed };

    fn put(&self, out: &mut Vec<u8>) -> Result<(), AllocError> {
        out.extend_from_slice(put_s64(*self).as_slice())?;
        Ok(())
    }
}

/// Writes the index of a type, as a signed number of 33 bits.
pub(crate) fn put_index(index: u32, out: &mut Vec<u8>) -> Result<(), AllocError>
    ensures { OnOk result (out.new.items ≡ out.old.items ++ index_written index) }
{
    out.extend_from_slice(put_s33(index as i64).as_slice())?;
    Ok(())
}

/// Writes a count or a size.
pub(crate) fn put_count(count: usize, out: &mut Vec<u8>) -> Result<(), AllocError>
    ensures { OnOk result (out.new.items ≡ out.old.items ++ shortest count) }
{
    (count as u64).put(out)
}

/// Writes a list: how many, and each.
pub(crate) fn put_vec<T: Put>(items: &[T], out: &mut Vec<u8>) -> Result<(), AllocError>
    ensures { OnOk result (out.new.items ≡ out.old.items ++ vec_written T.written items.now) }
{
    put_count(items.len(), out)?;
    for item in items {
        item.put(out)?;
    }
    Ok(())
}

/// Writes bytes behind their number.
pub(crate) fn put_bytes(bytes: &[u8], out: &mut Vec<u8>) -> Result<(), AllocError>
    ensures { OnOk result (out.new.items ≡ out.old.items ++ bytes_written bytes.now) }
{
    put_count(bytes.len(), out)?;
    out.extend_from_slice(bytes)?;
    Ok(())
}
