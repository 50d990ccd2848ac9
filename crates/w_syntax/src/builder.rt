//! Building a body token by token.
ghost use Rattle.std.specs.Prelude.{◌≡◌, ◌<◌, IfOk, OnOk, length, slice_set};
ghost use Rattle.w_syntax.specs.declared.instructions.Instr.TheVariants as Flat;
ghost use Rattle.w_syntax.specs.declared.instructions.Op.{Op};
ghost use Rattle.w_syntax.specs.Code.{Code, Done, Plain, after};
ghost use Rattle.w_syntax.specs.Packed.{unpacked};
ghost use Rattle.w_syntax.specs.Expr.{Path, Top, step};
ghost use Rattle.w_syntax.specs.Builds.{Builds, ProgressTo, Holds, closed_of};

use crate::body::Body;
use crate::instructions::{BlockKind, BlockType, Instr, Token};
use crate::packed::PackedInstr;
use std::alloc::{AllocError, Global};

// How many instructions there is room for at first: most bodies then grow seldom.
const ROOM: usize = 64;

// A body of more instructions than these is not copied for room.
const SHORT: usize = 4096;

/// A block that is open: its type and its place; for a second branch also the place of the else.
#[derive(Clone, Copy)]
pub(crate) enum Open {
    Block(BlockKind, BlockType, usize),
    Then(BlockType, usize),
    Else(BlockType, usize, usize),
}

/// The body that tokens make, as far as they have come: its instructions, and the blocks that are open. In the place of a
/// block that is open stands an end, until the block's end has come.
#[derive(Drop)]
pub struct BodyBuilder {
    alloc: Global,
    code: Vec<PackedInstr>,
    opens: Vec<Open>,
}

/// What came of a token: the body goes on, or it is finished, or no body begins with these tokens.
#[derive(Clone, Copy)]
pub enum Progress {
    More,
    Finished,
    Wrong,
}

// Puts an instruction in the place of another.
fn replace(code: &mut Vec<PackedInstr>, head: usize, instr: PackedInstr)
    requires { head < length code.old.items }
    ensures { code.new.items ≡ slice_set code.old.items head instr }
{
    code[head] = instr;
}

// A block that is closed: its place, and its instruction with the place of its end.
fn closed(ended: Open, here: usize) -> (usize, Instr)
    ensures { result ≡ closed_of ended here }
{
    match ended {
        Open::Block(kind, block, head) => (head, Instr::Block(kind, block, here)),
        Open::Then(block, head) => (head, Instr::If(block, None, here)),
        Open::Else(block, head, other) => (head, Instr::If(block, Some(other), here)),
    }
}

// The list in no more room than it takes, where it is short.
fn in_exact_room(alloc: Global, mut code: Vec<PackedInstr>) -> Result<Vec<PackedInstr>, AllocError>
    ensures { IfOk result (λ v. v.items ≡ code.items) }
{
    if code.len() > SHORT {
        return Ok(code);
    }
    let mut exact = Vec::with_capacity(alloc, code.len())?;
    exact.append(&mut code)?;
    Ok(exact)
}

impl BodyBuilder {
    /// No instructions yet. It fails only for want of memory.
    pub fn new(alloc: Global) -> Result<BodyBuilder, AllocError>
        ensures { IfOk result (λ builder. Builds Top Done builder) }
    {
        let code = Vec::with_capacity(alloc, ROOM)?;
        Ok(BodyBuilder {
            alloc,
            code,
            opens: Vec::new(alloc),
        })
    }

    /// Takes an instruction that holds no others.
    pub fn push_plain(&mut self, packed: PackedInstr) -> Result<(), AllocError>
        ensures { OnOk result ((p : Path) (c : Code) (o : Op) → Builds p c self.old
            → unpacked packed ≡ Flat.Plain o → Builds p (after c (Plain o Done)) self.new) }
    {
        self.code.push(packed)?;
        Ok(())
    }

    /// Takes the next token. After `Finished` the body is there, by `into_body`; after `Wrong` and want of memory nothing is
    /// known of the builder.
    pub fn push(&mut self, token: Token) -> Result<Progress, AllocError>
        requires { (p : Path) × (c : Code) × Builds p c self.old }
        ensures { IfOk result (λ r. (p : Path) (c : Code) → Builds p c self.old → ProgressTo (step p c token) r self.new) }
    {
        let here = self.code.len();
        match token {
            Token::Plain(op) => {
                let packed = PackedInstr::new(self.alloc, Instr::Plain(op))?;
                self.code.push(packed)?;
                Ok(Progress::More)
            }
            Token::Block(kind, block) => {
                self.opens.push(Open::Block(kind, block, here))?;
                self.code.push(PackedInstr::End)?;
                Ok(Progress::More)
            }
            Token::If(block) => {
                self.opens.push(Open::Then(block, here))?;
                self.code.push(PackedInstr::End)?;
                Ok(Progress::More)
            }
            Token::Else => {
                let Some(last) = self.opens.pop() else {
                    return Ok(Progress::Wrong);
                };
                let Open::Then(block, head) = last else {
                    return Ok(Progress::Wrong);
                };
                self.opens.push(Open::Else(block, head, here))?;
                self.code.push(PackedInstr::Else)?;
                Ok(Progress::More)
            }
            Token::End => {
                let Some(last) = self.opens.pop() else {
                    self.code.push(PackedInstr::End)?;
                    return Ok(Progress::Finished);
                };
                let (head, instr) = closed(last, here);
                let packed = PackedInstr::new(self.alloc, instr)?;
                replace(&mut self.code, head, packed);
                self.code.push(PackedInstr::End)?;
                Ok(Progress::More)
            }
        }
    }

    /// The body that is finished, in no more room than it takes where it is short. It fails only for want of memory.
    pub fn into_body(self) -> Result<Body, AllocError>
        requires { (d : Code) × Holds d self }
        ensures { IfOk result (λ body. (d : Code) → Holds d self → body ≡ d) }
    {
        let code = in_exact_room(self.alloc, self.code)?;
        Ok(Body::new(code))
    }
}
