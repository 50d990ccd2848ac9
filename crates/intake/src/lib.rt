//! Files, taken in as they are read, and judged: what a file is to what takes it, the module that its bytes or its text are, and why there
//! is none.
#![tactic(auto)]

mod files;
mod input;
mod intake;
mod judging;
mod module_intake;
mod several;
mod texts;

pub use files::open;
pub use input::INPUT_LIMIT;
pub use intake::Input;
pub use judging::accept;
pub use module_intake::{ModuleIntake, judge_bytes};
pub use several::{judge_file, read_module};
pub use texts::judge_text;
