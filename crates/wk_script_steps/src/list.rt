//! Where a ticket stands among those that are out.
ghost use Rattle.std.specs.Prelude.{◌≡◌, ◌<◌, length, IfSome, IfNone, Some, None, find, slice_get};
ghost use Rattle.wk_script_steps.specs.Drafts.{has_number};

use crate::open::OpenTicket;

/// The place of the first ticket with this number; `None` exactly where none has it. Takes no memory.
pub fn place(tickets: &[OpenTicket], number: u64) -> Option<usize>
    ensures found { IfSome result (λ at. find (has_number number) tickets.now ≡ slice_get tickets.now at) }
    ensures within { IfSome result (λ at. at < length tickets.now) }
    ensures none { IfNone result (find (has_number number) tickets.now ≡ None) }
{
    for (at, open) in tickets.iter().enumerate() {
        if open.number() == number {
            return Some(at);
        }
    }
    None
}
