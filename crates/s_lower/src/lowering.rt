//! The module of a script.
ghost use Rattle.std.specs.Prelude.{◌≡◌, ◌≤◌, codes, sum_by, IfOk, OnOk};
ghost use Rattle.w_syntax.specs.Module.{empty_module};
ghost use Rattle.s_syntax.specs.declared.script.Script.{Script as TheScript};
ghost use Rattle.s_syntax.specs.declared.script.Declaration.{Declaration as TheDeclaration};
ghost use Rattle.s_check.specs.Size.{Size, definition_size, size_limit};
ghost use Rattle.s_code.specs.Lowered.{lowered};
ghost use Rattle.s_lower.specs.Answers.{Answers};
ghost use Rattle.s_lower.specs.Views.{untyped};

use crate::fault::LowerFault;
use crate::parts::{
    groups, push_elements, push_function_codes, push_function_types, push_handler_codes,
    push_handler_types, push_main, push_printer, push_tables, push_tags,
};
use s_check::CheckedScript;
use s_index::Program;
use s_size::is_within;
use s_syntax::{Name, Script};
use std::alloc::{AllocError, Global};
use w_syntax::Module;

/// The greatest size of a script that is checked, and compiled.
pub const SIZE_LIMIT: u32 = 50_000;

// Puts what is no type into a module that is empty yet.
fn add_parts<'a>(
    alloc: Global,
    program: &Program<'a>,
    main: &'a Name,
    compiled: &mut Module,
) -> Result<(), AllocError>
    requires main { main.now ≡ codes "main" }
    requires few { sum_by (λ (d : TheDeclaration). definition_size d.definition) program.now ≤ size_limit }
    requires empty { compiled.now ≡ empty_module }
    ensures value { OnOk result (compiled.new ≡ untyped program.now) }
{
    push_printer(alloc, &mut compiled.imports)?;
    push_function_types(alloc, program, &mut compiled.functions)?;
    push_handler_types(alloc, program, &mut compiled.functions)?;
    push_tables(program, &mut compiled.tables)?;
    push_tags(alloc, program, &mut compiled.tags)?;
    push_main(alloc, program, main, &mut compiled.exports)?;
    push_elements(alloc, program, &mut compiled.elements)?;
    push_function_codes(alloc, program, &mut compiled.codes)?;
    push_handler_codes(alloc, program, &mut compiled.codes)?;
    Ok(())
}

// Makes an empty module that of a script whose size is within the limit.
fn fill(alloc: Global, script: &Script, compiled: &mut Module) -> Result<(), AllocError>
    requires small { Size script.now ≤ size_limit }
    requires empty { compiled.now ≡ empty_module }
    ensures value { OnOk result (compiled.new ≡ lowered script.now) }
{
    let main = Name::new(alloc, b"main")?;
    let program = Program::new(alloc, script.declarations.as_slice())?;
    add_parts(alloc, &program, &main, compiled)?;
    compiled.types = groups(alloc, program.into_types())?;
    Ok(())
}

// The module of a script whose size is within the limit.
fn module(alloc: Global, script: &Script) -> Result<Module, AllocError>
    requires { Size script.now ≤ size_limit }
    ensures value { IfOk result (λ made. made ≡ lowered script.now) }
{
    let mut module = Module::empty(alloc);
    fill(alloc, script, &mut module)?;
    Ok(module)
}

/// The module that a script which breaks no rule is compiled to. `TooLarge` is answered just where the size of the script is above 50,000, and
/// then no memory is taken; `OutOfMemory` may come of any other. It takes time that is linear in the script, but for the logarithms of maps of
/// its names, and for its types, of which there are at most some 1,500 in a script that breaks no rule.
pub fn lower(alloc: Global, script: &CheckedScript) -> Result<Module, LowerFault>
    ensures answer { Answers script.now result }
{
    let script = script.script();
    if !is_within(script, SIZE_LIMIT) {
        return Err(LowerFault::TooLarge);
    }
    Ok(module(alloc, script)?)
}
