//! Where lines end.
ghost use Rattle.std.specs.Prelude.{◌≡◌, ◌≤◌, ◌<◌, ◌+◌, ◌++◌, ◌∷◌, [], length, drop, slice_range, IfSome, IfNone};
ghost use Rattle.w_words.specs.Pieces.{InLine};

/// Where the line that begins at a place ends: at its line feed. `None` where no line feed follows.
pub fn line_end(text: &[u8], at: usize) -> Option<usize>
    requires { at ≤ length text.now }
    ensures place { IfSome result (λ end. (at ≤ end) × (end < length text.now)) }
    ensures some { IfSome result (λ end. InLine (slice_range text.now at end)) }
    ensures parts { IfSome result (λ end. drop at text.now ≡ (slice_range text.now at end ++ 10 ∷ []) ++ drop (end + 1) text.now) }
    ensures none { IfNone result (InLine (drop at text.now)) }
{
    for place in at..text.len() {
        if text[place] == 10 {
            return Some(place);
        }
    }
    None
}
