//! Globals.
ghost use Rattle.std.specs.Prelude.{◌≡◌, ◌<◌, length, slice_get};
ghost use Rattle.w_tables.specs.Operations.{global_set};

use crate::store::Store;
use w_types::Value;

impl Store {
    /// The value of the global at an address (Core, execution, `global.get`).
    #[inline]
    pub fn global_get(&self, g: u32) -> Value
        requires global { g < length self.now.globals }
        ensures value { slice_get self.now.globals g ≡ Some result }
    {
        self.globals[g as usize]
    }

    /// Sets the value of the global at an address (Core, execution, `global.set`).
    #[inline]
    pub fn global_set(&mut self, g: u32, v: Value)
        requires global { g < length self.old.globals }
        ensures set { self.new ≡ global_set self.old g v }
    {
        self.globals[g as usize] = v;
    }
}
