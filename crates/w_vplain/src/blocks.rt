//! The beginnings and ends of blocks.
ghost use Rattle.std.specs.Prelude.{◌≡◌, ◌∷◌, [], Bool, List, IfOk, IfSome, is_some, if◌then◌else◌};
ghost use Rattle.lists.specs.Rows.{row_of};
ghost use Rattle.w_flow.specs.Flow.{pops};
ghost use Rattle.w_flow.specs.View.{flow_view, reached, HasWords};
ghost use Rattle.w_rules.specs.Matching.{known};
ghost use Rattle.w_rules.specs.Spaces.{in_body};
ghost use Rattle.w_rules.specs.View.{context_in};
ghost use Rattle.w_rows.specs.TypeRows.{IsReady, AreReadyRows};
ghost use Rattle.w_steps.specs.View.{arrow_view};
ghost use Rattle.w_vplain.specs.Frames.{Frame as TheFrame, enter_next, other_next, end_test as needs_no_branch, end_next, no_frames};
ghost use Rattle.w_vplain.specs.Prefixes.{taken_by};
ghost use Rattle.w_vplain.specs.Measures.{tally};
ghost use Rattle.w_vplain.specs.View.{frame_view, inner_with, else_with, left_with};

use std::alloc::AllocError;
use w_canon::Classes;
use w_flow::{Flow, OperandList};
use w_rows::{FuncRows, TypeRow};
use w_steps::{Frame, FrameKind, Setting, arrow};

// Takes what a block with these parameters takes, and gives the operands at its beginning.
fn enter_params(
    room: OperandList,
    classes: &Classes,
    kind: &FrameKind,
    flow: &mut Flow,
    from: TypeRow,
) -> Result<Option<Flow>, AllocError>
    requires words { HasWords classes.now flow.old }
    requires ready { IsReady classes.now from }
    ensures left { IfOk result (λ inner. pops classes.now (flow_view flow.old).any
        (flow_view flow.old).operands
        (taken_by kind.now (record { from = row_of from.entry.types.now; to = row_of [] }))
        ≡ (if is_some inner then Some (flow_view flow.new).operands else None)) }
    ensures inner { IfOk result (λ inner. IfSome inner (λ f. flow_view f
        ≡ reached (known (row_of from.entry.types.now)))) }
    ensures same { (flow_view flow.new).any ≡ (flow_view flow.old).any }
    ensures words { HasWords classes.now flow.new }
    ensures inner_words { IfOk result (λ inner. IfSome inner (HasWords classes.now)) }
{
    if matches!(kind, FrameKind::Then(_) | FrameKind::Else(_)) && !flow.take_tested(classes) {
        return Ok(None);
    }
    flow.enter(room, classes, from)
}

/// How many operands there are in the block and around it, where its place is counted. It fails where that passes 64 bits, as for want
/// of memory.
pub(crate) fn height(frame: &Frame) -> Result<Option<u64>, AllocError>
    ensures { IfOk result (λ h. h ≡ tally (flow_view frame.now.flow).any
        (flow_view frame.now.flow).operands frame.now.base) }
{
    if frame.flow.is_any() {
        return Ok(None);
    }
    let Some(base) = frame.base else {
        return Ok(None);
    };
    match base.checked_add(frame.flow.len() as u64) {
        Some(count) => Ok(Some(count)),
        None => Err(AllocError),
    }
}

/// Takes what a block takes of the operands around it, and gives the frame inside it, whose operands stand in this room. `None` where
/// they are not there.
pub(crate) fn inner_frame(
    room: OperandList,
    setting: &Setting,
    kind: FrameKind,
    around: &mut Frame,
) -> Result<Option<Frame>, AllocError>
    requires { HasWords setting.now.cx.now.classes.now around.old.flow }
    ensures steps { IfOk result (λ inner. (fs : List TheFrame) (s : List Bool) →
        enter_next setting.now.cx.now.classes.now (in_body (context_in setting.now.cx.now) [] setting.now.results.types.now) kind
        (frame_view around.old s) fs ≡ inner_with inner around.new s fs) }
    ensures base { IfOk result (λ inner. IfSome inner (λ f. f.base
        ≡ tally (flow_view around.new.flow).any
        (flow_view around.new.flow).operands around.new.base)) }
    ensures same_base { around.new.base ≡ around.old.base }
    ensures same_kind { around.new.kind ≡ around.old.kind }
    ensures kind { IfOk result (λ inner. IfSome inner (λ f. f.kind ≡ kind)) }
    ensures words { HasWords setting.now.cx.now.classes.now around.new.flow }
    ensures inner_words { IfOk result (λ inner. IfSome inner (λ f. HasWords setting.now.cx.now.classes.now f.flow)) }
{
    let Some(arrow) = arrow(setting, &kind) else {
        return Ok(None);
    };
    let flow = &mut around.flow;
    let Some(flow) = enter_params(room, setting.cx.classes, &kind, flow, arrow.params)? else {
        return Ok(None);
    };
    let base = height(around)?;
    Ok(Some(Frame { kind, flow, base }))
}

/// The frame of an if's second branch, whose operands stand in this room, where the first one ends well and has blocks around it.
pub(crate) fn else_frame(
    room: OperandList,
    setting: &Setting,
    first: &Frame,
) -> Result<Option<Frame>, AllocError>
    requires { HasWords setting.now.cx.now.classes.now first.now.flow }
    ensures steps { IfOk result (λ second. (g : TheFrame) (gs : List TheFrame) (s : List Bool) →
        other_next setting.now.cx.now.classes.now (in_body (context_in setting.now.cx.now) [] setting.now.results.types.now) first.now.kind
        (frame_view first.now s) (g ∷ gs) ≡ else_with second g gs) }
    ensures base { IfOk result (λ second. IfSome second (λ f. f.base ≡ first.now.base)) }
    ensures words { IfOk result (λ second. IfSome second (λ f. HasWords setting.now.cx.now.classes.now f.flow)) }
{
    let FrameKind::Then(block) = first.kind else {
        return Ok(None);
    };
    let Some(arrow) = arrow(setting, &first.kind) else {
        return Ok(None);
    };
    if !first.flow.ends_with(setting.cx.classes, arrow.results) {
        return Ok(None);
    }
    let flow = Flow::of_types(room, setting.cx.classes, arrow.params)?;
    Ok(Some(Frame {
        kind: FrameKind::Else(block),
        flow,
        base: first.base,
    }))
}

// Whether a block without a second branch needs none.
#[tactic(auto, using(crate::proofs::EndsListed::ends_listed))]
fn needs_none(classes: &Classes, kind: &FrameKind, arrow: FuncRows) -> bool
    requires { AreReadyRows classes.now arrow }
    ensures { result ≡ needs_no_branch classes.now kind.now (arrow_view arrow.entry) }
{
    match kind {
        FrameKind::Then(_) => arrow.fit(classes),
        FrameKind::Body | FrameKind::Block(_, _) | FrameKind::Else(_) => true,
    }
}

/// What the innermost block leaves, where it ends well; a body stands alone, and every other block in one.
pub(crate) fn end_types<'c>(
    setting: &'c Setting<'c>,
    kind: &'c FrameKind,
    flow: &Flow,
    alone: bool,
) -> Option<TypeRow<'c>>
    requires { HasWords setting.now.cx.now.classes.now flow.now }
    ensures left { (fs : List TheFrame) (s : List Bool) → alone ≡ no_frames fs →
        end_next setting.now.cx.now.classes.now (in_body (context_in setting.now.cx.now) [] setting.now.results.types.now)
        (record { kind = kind.now; any = (flow_view flow.now).any; operands = (flow_view flow.now).operands; is_set = s })
        fs ≡ left_with result fs }
    ensures ready { IfSome result (IsReady setting.now.cx.now.classes.now) }
{
    let arrow = arrow(setting, kind)?;
    if matches!(kind, FrameKind::Body) != alone {
        return None;
    }
    if !flow.ends_with(setting.cx.classes, arrow.results) {
        return None;
    }
    if !needs_none(setting.cx.classes, kind, arrow) {
        return None;
    }
    Some(arrow.results)
}
