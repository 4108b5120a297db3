//! What is asked of the present.
ghost use Rattle.wk_shared.specs.Answers.{FetchTold};
ghost use Rattle.wk_shared.specs.Calls.{HasSeen, IsFree, IsMadeAt};

use crate::shared::Shared;
use std::sync::Wait;
use wk_core::{Answer, Keeper, Kind, Wiki};
use wk_memory::Memory;
use wk_title::Title;
use wk_turn::Pass;

impl<K: Keeper> Shared<K> {
    /// What the world at the point answers where the title is asked in this way, and the point. It adds no entry. It
    /// waits.
    pub fn fetch<R: Wait>(
        &self,
        rt: &R,
        pass: &mut Pass<Wiki<K>>,
        title: &Title,
        kind: Kind,
    ) -> (Result<Answer, Memory>, u64)
        requires { IsFree self.now pass.old }
        ensures pass { HasSeen self.now pass.old pass.new result.1 }
        ensures call { IsMadeAt self.now.start pass.old pass.new (FetchTold title.now kind result.0) }
    {
        let held = self.take_wiki(rt, pass);
        let answer = held.value.fetch(title, kind);
        let point = self.give_wiki(pass, held);
        (answer, point)
    }
}
