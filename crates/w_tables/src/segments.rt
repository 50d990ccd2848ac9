//! Element and data segments.
ghost use Rattle.std.specs.Prelude.{◌≡◌, ◌<◌, length};
ghost use Rattle.w_tables.specs.Operations.{data_drop, elem_drop};

use crate::store::Store;

impl Store {
    /// Drops the values of an element segment, which has length 0 from then on (Core, execution, `elem.drop`).
    pub fn elem_drop(&mut self, e: u32)
        requires segment { e < length self.old.elems }
        ensures dropped { self.new ≡ elem_drop self.old e }
    {
        let items = Vec::new(*self.elems.allocator());
        self.elems[e as usize].items = items;
    }

    /// Drops the bytes of a data segment, which has length 0 from then on (Core, execution, `data.drop`).
    pub fn data_drop(&mut self, d: u32)
        requires segment { d < length self.old.datas }
        ensures dropped { self.new ≡ data_drop self.old d }
    {
        let bytes = Vec::new(*self.datas.allocator());
        self.datas[d as usize].bytes = bytes;
    }
}
