//! Where an instruction stands.
ghost use Rattle.std.specs.Prelude.{◌≡◌, [], ◌∷◌, List, IfSome, slice_get};
ghost use Rattle.std.specs.Option.{option_map};
ghost use Rattle.lists.specs.Rows.{row_of};
ghost use Rattle.w_canon.specs.declared.entry.Entry.{Entry};
ghost use Rattle.w_rules.specs.Context.{arrow_of};
ghost use Rattle.w_rules.specs.Spaces.{in_body};
ghost use Rattle.w_rules.specs.View.{context_in};
ghost use Rattle.w_rows.specs.TypeRows.{IsReady, AreReadyRows};
ghost use Rattle.w_steps.specs.Labels.{arrow_at, label_at, labels_of};
ghost use Rattle.w_steps.specs.View.{arrow_view, outer_kinds};

use crate::frame::Frame;
use crate::frame_kind::FrameKind;
use crate::setting::Setting;
use std::slice::from_ref;
use w_locals::Locals;
use w_rows::{FuncRows, TypeRow};
use w_syntax::{BlockKind, BlockType};

/// What the typing of an instruction goes by, but for the operands: the module, the function's locals and those of them that are
/// set, its results, the innermost block's kind, and the blocks around it.
#[derive(Clone, Copy)]
pub struct BodyContext<'c> {
    pub setting: &'c Setting<'c>,
    pub locals: &'c Locals<'c>,
    pub kind: &'c FrameKind,
    pub outer: &'c [Frame],
}

// What a block of this type takes and gives.
#[inline(always)]
fn block_arrow<'c>(setting: &'c Setting<'c>, block: &'c BlockType) -> Option<FuncRows<'c>>
    ensures arrow { arrow_of (context_in setting.now.cx.now) block.now ≡ option_map arrow_view result }
    ensures ready { IfSome result (AreReadyRows setting.now.cx.now.classes.now) }
{
    match block {
        BlockType::Empty => Some(FuncRows::results_alone(TypeRow::bare(&[]))),
        BlockType::Value(kind) => {
            if setting.cx.has_type(*kind) {
                Some(FuncRows::results_alone(TypeRow::bare(from_ref(kind))))
            } else {
                None
            }
        }
        BlockType::Index(index) => setting.func_of(*index),
    }
}

/// What a block of this kind takes and gives. It is inlined, since its rows are two of many words.
#[inline(always)]
pub fn arrow<'c>(setting: &'c Setting<'c>, kind: &'c FrameKind) -> Option<FuncRows<'c>>
    ensures arrow { arrow_at (in_body (context_in setting.now.cx.now) [] setting.now.results.types.now) kind.now
        ≡ option_map arrow_view result }
    ensures ready { IfSome result (AreReadyRows setting.now.cx.now.classes.now) }
{
    match kind {
        FrameKind::Body => Some(FuncRows::results_alone(setting.results)),
        FrameKind::Block(_, block) | FrameKind::Then(block) | FrameKind::Else(block) => block_arrow(
            setting, block,
        ),
    }
}

// What a branch to the label of a block of this kind takes, by the block's type.
fn label_by_type<'c>(setting: &'c Setting<'c>, kind: &'c FrameKind) -> TypeRow<'c>
    ensures label { label_at (in_body (context_in setting.now.cx.now) [] setting.now.results.types.now) kind.now
        ≡ row_of result.types.now }
    ensures ready { IsReady setting.now.cx.now.classes.now result }
{
    match arrow(setting, kind) {
        Some(arrow) => {
            if let FrameKind::Block(BlockKind::Loop, _) = kind {
                arrow.params
            } else {
                arrow.results
            }
        }
        None => TypeRow::bare(&[]),
    }
}

// What a branch to the label of a block of this kind takes. Most blocks take and give nothing.
fn label<'c>(setting: &'c Setting<'c>, kind: &'c FrameKind) -> TypeRow<'c>
    ensures label { label_at (in_body (context_in setting.now.cx.now) [] setting.now.results.types.now) kind.now
        ≡ row_of result.types.now }
    ensures ready { IsReady setting.now.cx.now.classes.now result }
{
    match kind {
        FrameKind::Block(_, BlockType::Empty)
        | FrameKind::Then(BlockType::Empty)
        | FrameKind::Else(BlockType::Empty) => TypeRow::bare(&[]),
        _ => label_by_type(setting, kind),
    }
}

/// What a branch to a label takes, in a block of this kind with others around it. Labels are counted from the innermost block.
pub fn label_of<'c>(
    setting: &'c Setting<'c>,
    kind: &'c FrameKind,
    outer: &'c [Frame],
    index: u32,
) -> Option<TypeRow<'c>>
    ensures label { slice_get (labels_of (in_body (context_in setting.now.cx.now) [] setting.now.results.types.now) (kind.now
        ∷ outer_kinds outer.now)) index
        ≡ option_map (λ v. row_of v.types.now) result }
    ensures ready { IfSome result (IsReady setting.now.cx.now.classes.now) }
{
    if index == 0 {
        return Some(label(setting, kind));
    }
    let back = index as usize;
    if back > outer.len() {
        return None;
    }
    Some(label(setting, &outer[outer.len() - back].kind))
}

impl<'c> BodyContext<'c> {
    ghost use Rattle.std.specs.Prelude.{◌≡◌, IfSome, slice_get};
    ghost use Rattle.std.specs.Option.{option_map};
    ghost use Rattle.lists.specs.Rows.{row_of};
    ghost use Rattle.w_rows.specs.TypeRows.{IsReady};
    ghost use Rattle.w_steps.specs.View.{context_at};

    /// What a branch to a label takes.
    pub fn label(&self, index: u32) -> Option<TypeRow<'c>>
        ensures label { slice_get (context_at self.now).labels index
            ≡ option_map (λ v. row_of v.types.now) result }
        ensures ready { IfSome result (IsReady self.now.setting.now.cx.now.classes.now) }
    {
        label_of(self.setting, self.kind, self.outer, index)
    }
}
