//! The pages that include each other, as a frame.
ghost use Rattle.std.specs.Prelude.{◌≡◌, ◌<◌, IfSome, IsSome, drop, length, nat_le};
ghost use Rattle.wk_view_rules.specs.Expansions.{most_depth};
ghost use Rattle.wk_view_rules.specs.Frames.{Frame, bound_to, is_within};
ghost use Rattle.wk_tree.specs.Parsed.{list_with};
ghost use Rattle.wk_frames.specs.Frames.{IsBindingIn, ShowsFrame};
ghost use Rattle.wk_frames.specs.Levels.{tree_in};

use crate::levels::{Bound, Levels};
use wk_out::Out;
use wk_title::Title;

/// How many pages may include each other (own).
const MOST_DEPTH: usize = 40;

impl Levels {
    /// Whether the title's text is being expanded, as the text of a page that is included. Takes no memory.
    #[inline(always)]
    pub fn is_within(&self, title: &Title) -> bool
        ensures { (frame : Frame) → ShowsFrame self.now.root self.now.included frame
            → result ≡ is_within frame title.now }
    {
        self.holds(title)
    }

    /// Whether no further page may be included here: 40 pages include each other. Takes no memory.
    #[inline(always)]
    pub fn is_deep(&self) -> bool
        ensures { (frame : Frame) → ShowsFrame self.now.root self.now.included frame
            → result ≡ nat_le most_depth (length frame) }
    {
        MOST_DEPTH <= self.depth()
    }

    /// What a name is bound to in the innermost page: a list of the text behind it. None where the name isn't bound, where
    /// it holds a sealed byte, and where no page is included. Takes no memory.
    pub fn look(&self, name: &Out) -> Option<Bound>
        ensures bound { (frame : Frame) → ShowsFrame self.now.root self.now.included frame
            → IsBindingIn (tree_in self.now.root (drop 1 self.now.included)) result (bound_to frame name.now) }
        ensures within { IfSome result (λ bound. 0 < length self.now.included) }
        ensures list { IfSome result
            (λ bound. IsSome (list_with (tree_in self.now.root (drop 1 self.now.included)) bound.value)) }
    {
        let name = name.plain_text()?;
        self.look_text(name)
    }
}
