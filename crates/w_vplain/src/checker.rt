//! The checker of one body. Of the standard's validation algorithm `outer` with `top` is `ctrls`, `enter_block` is `push_ctrl` and
//! `end_block` is `pop_ctrl`; the log in `locals` is `inits`.
ghost use Rattle.w_rows.specs.OneProof.{AreWorded-prop};
ghost use Rattle.w_flow.specs.View.{HasWords};
ghost use Rattle.w_steps.specs.FramesWorded.{EachHasWords, EachHasWords-prop};

use std::alloc::Global;
use w_flow::OperandList;
use w_locals::Locals;
use w_steps::{Frame, Setting};

/// Types a body, one call for each instruction (Core, validation algorithm). It stands for sequences of instructions so far, by
/// `StandsFor`; it keeps no instructions. Once a call answered false each later call does, and once out of memory it stays so.
#[derive(Drop)]
pub struct Checker<'a> {
    pub(crate) alloc: Global,
    pub(crate) setting: Setting<'a>,
    pub(crate) locals: Locals<'a>,
    pub(crate) outer: Vec<Frame>,
    pub(crate) top: Frame,
    // for the operands of the next blocks
    pub(crate) spare: Vec<OperandList>,
    pub(crate) peak: u64,
    pub(crate) depth: u32,
    pub(crate) ended: bool,
    pub(crate) refused: bool,
    pub(crate) out_of_memory: bool,
    ghost top_words: { HasWords setting.cx.now.classes.now top.flow } by { AreWorded-prop setting.cx.now.classes.now top.flow.operands },
    ghost outer_words: { EachHasWords setting.cx.now.classes.now outer.items } by { EachHasWords-prop setting.cx.now.classes.now outer.items },
}
