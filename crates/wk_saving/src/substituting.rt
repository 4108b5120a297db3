//! What texts become in the present world of a wiki.
ghost use Rattle.std.specs.Prelude.{◌≡◌, IfOk};
ghost use Rattle.wk_view_rules.specs.Plans.{done};
ghost use Rattle.wk_view_rules.specs.Worlds.{of_world};
ghost use Rattle.wk_wiki_rules.specs.States.{world_of};
ghost use Rattle.wk_subst_rules.specs.Substitution.{substituted};

use std::alloc::Global;
use wk_base::NoGate;
use wk_bytes::Text;
use wk_drafts::{Ended, drafted_by};
use wk_expand::Seen;
use wk_live::Live;
use wk_memory::Memory;
use wk_subst::{SubstMachine, Substituted, Texts};

/// What a text becomes before it is saved, in the present world (MediaWiki's Help:Substitution). One machine gets one answer
/// after the other.
pub fn substituted_now(alloc: Global, live: &Live, text: &Text) -> Result<Substituted, Memory>
    ensures saved { IfOk result (λ made. made.saved ≡ text.now) }
    ensures made { IfOk result (λ made. substituted (of_world (world_of live.now.state)) text.now ≡ done made.text made.reads) }
{
    let machine = SubstMachine::new(alloc, text)?;
    let mut seen = Seen::new(alloc);
    let mut texts = Texts::new(alloc);
    match drafted_by(
        &(),
        live,
        &mut (),
        &mut NoGate,
        machine,
        &mut seen,
        &mut texts,
    )? {
        Ended::Made(made) => {
            let _text = made.text();
            Ok(made)
        }
        Ended::Unknown(_, _) => unreachable!(),
    }
}
