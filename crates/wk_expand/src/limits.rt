//! The limits on the bytes of arguments and of included texts.
ghost use Rattle.std.specs.Prelude.{◌≡◌, List, length, IfOk};
ghost use Rattle.std.specs.Bool.{OnTrue, OnFalse};
ghost use Rattle.wk_text_rules.specs.Titles.{PageTitle};
ghost use Rattle.wk_view_rules.specs.Expansions.{Output, argument_within_limit, give, inclusion_within_limit};
ghost use Rattle.wk_view_rules.specs.Plans.{gives};
ghost use Rattle.wk_view_rules.specs.Texts.{argument_error};
ghost use Rattle.wk_view_rules.specs.Worlds.{Seen};
ghost use Rattle.wk_expand.specs.Running.{ComesTo};
ghost use Rattle.wk_expand.specs.State.{progress_with};

use crate::answer::Counts;
use crate::state::Expander;
use crate::texts::{argument_error, link_text};
use wk_memory::Memory;
use wk_out::Out;
use wk_title::Title;

/// The bytes of arguments, and of included texts, at most (own).
const MOST_BYTES_IN_ALL: u64 = 2_097_152;

impl Counts {
    /// Counts so many bytes of an argument, unless arguments would have too many bytes in all.
    pub fn add_argument(&mut self, len: usize) -> bool
        ensures within { OnTrue result ((out : Output) (tested : List PageTitle) → length out ≡ len
            → argument_within_limit out (progress_with self.old tested) ≡ gives (out, progress_with self.new tested)) }
        ensures beyond { OnFalse result ((out : Output) (tested : List PageTitle) → length out ≡ len
            → argument_within_limit out (progress_with self.old tested) ≡ gives (argument_error, progress_with self.new tested)) }
    {
        match self.argument.checked_add(len as u64) {
            Some(sum) if sum <= MOST_BYTES_IN_ALL => {
                self.argument = sum;
                true
            }
            _ => false,
        }
    }
}

impl Expander {
    /// An argument's text, or the error where arguments would have too many bytes in all.
    pub fn within_argument_limit(&mut self, out: Out) -> Result<Out, Memory>
        ensures { IfOk result (λ given. (seen : Seen) → ComesTo seen (argument_within_limit out) self.old (give given) self.new) }
    {
        if self.counts.add_argument(out.len()) {
            Ok(out)
        } else {
            Ok(argument_error(self.alloc)?)
        }
    }

    /// The text of an inclusion, or a link to the page where inclusions would have too many bytes in all.
    #[inline(always)]
    pub fn within_inclusion_limit(&mut self, title: &Title, out: Out) -> Result<Out, Memory>
        ensures { IfOk result (λ given. (seen : Seen) → ComesTo seen (inclusion_within_limit title.now out) self.old (give given) self.new) }
    {
        match self.counts.include.checked_add(out.len() as u64) {
            Some(sum) if sum <= MOST_BYTES_IN_ALL => {
                self.counts.include = sum;
                Ok(out)
            }
            _ => Ok(link_text(self.alloc, title)?),
        }
    }
}
