//! What holds of the messages of a stream, whatever its bytes are.
ghost use Rattle.std.specs.Prelude.{◌≡◌, ℕ, ◌<◌, ◌≤◌, List, [], ◌++◌, length};
ghost use Rattle.wk_wire_rules.specs.Heads.{Message, most_body};
ghost use Rattle.wk_wire_rules.specs.Messages.{most_head, IsMessage, IsBad, IsOpen, Ending, Messages};

/// A whole message stays the next one, and a bad place stays bad, whatever bytes follow.
pub fn what_is_decided_stays_decided()
    ensures message { (bytes more rest : List ℕ) (message : Message)
        → IsMessage bytes message rest → IsMessage (bytes ++ more) message (rest ++ more) }
    ensures bad { (bytes more : List ℕ) (status : ℕ) → IsBad bytes status → IsBad (bytes ++ more) status }
{}

/// A stream has one list of messages and one ending: at its front stands a whole message, a bad place or neither, and
/// only one of each. That it has none can be refuted.
pub fn a_stream_is_read_in_one_way()
    ensures message { (bytes rest left : List ℕ) (message other : Message)
        → IsMessage bytes message rest → IsMessage bytes other left → (message ≡ other) × (rest ≡ left) }
    ensures status { (bytes : List ℕ) (status other : ℕ) → IsBad bytes status → IsBad bytes other → status ≡ other }
    ensures not_both { (bytes rest : List ℕ) (message : Message) (status : ℕ)
        → IsMessage bytes message rest → IsBad bytes status → ⊥ }
    ensures some { (bytes : List ℕ) → ¬ (¬ ((messages : List Message) × (ending : Ending) × Messages bytes messages ending)) }
    ensures stream { (bytes : List ℕ) (messages others : List Message) (ending other : Ending)
        → Messages bytes messages ending → Messages bytes others other → (messages ≡ others) × (ending ≡ other) }
{}

/// A message takes bytes from the front of a stream, and its parts are within the limits.
pub fn a_message_is_short()
    ensures takes { (bytes rest : List ℕ) (message : Message) → IsMessage bytes message rest → length rest < length bytes }
    ensures path { (bytes rest : List ℕ) (message : Message) → IsMessage bytes message rest → length message.path ≤ most_head }
    ensures query { (bytes rest : List ℕ) (message : Message) → IsMessage bytes message rest → length message.query ≤ most_head }
    ensures body { (bytes rest : List ℕ) (message : Message) → IsMessage bytes message rest → length message.body ≤ most_body }
{}

/// Where no bytes are, there is no whole message and no bad place.
pub fn no_bytes_are_open()
    ensures { IsOpen [] }
{}
