//! The items of a `#switch`.
ghost use Rattle.std.specs.Prelude.{◌≡◌};
ghost use Rattle.wk_view_rules.specs.Words.{after_bare_item, after_named_item, bare_item, is_default, named_item, switch_on};

use crate::equality::equal;
use crate::word::is_same_but_case;
use std::marker::Model;
use std::mem;
use wk_out::Out;
use wk_view_rules::Turned;

/// Whether an output is `#default`, plain and in any case of its letters.
fn is_default(out: &Out) -> bool
    ensures { result ≡ is_default out.now }
{
    match out.plain_text() {
        Some(text) => is_same_but_case(text.as_bytes(), b"#default"),
        None => false,
    }
}

/// The search of a `#switch` for its result, item by item (MediaWiki's Help:Extension:ParserFunctions). It ends at the
/// first item that is the result. Contracts see the subject, and whether a bare `#default` stands before the next item
/// with no item with an equals sign between (own).
#[derive(Drop)]
pub struct Switch {
    subject: Out,
    default_before: bool,
}

impl Model for Switch {
    ghost use Rattle.wk_view_rules.specs.Words.{SwitchState};

    ghost Value = { SwitchState };

    ghost view = { λ s. record { subject = s.subject; default_before = s.default_before } };
}

impl Switch {
    /// The search for this subject, which is trimmed, before the first item. Takes no memory.
    pub fn new(subject: Out) -> Switch
        ensures { result ≡ switch_on subject }
    {
        Switch {
            subject,
            default_before: false,
        }
    }

    /// What an item with an equals sign is, by its trimmed name: `Result` where the name equals the subject, else
    /// `Default` where the name is `#default` in any case or a bare `#default` stands before it (own), else `Pass`.
    /// Takes no memory.
    pub fn named(&mut self, name: &Out) -> Turned
        ensures turned { result ≡ named_item self.old name.now }
        ensures after { self.new ≡ after_named_item self.old }
    {
        let default_before = mem::replace(&mut self.default_before, false);
        if equal(name, &self.subject) {
            Turned::Result
        } else if is_default(name) || default_before {
            Turned::Default
        } else {
            Turned::Pass
        }
    }

    /// What an item without an equals sign is, by its trimmed text: `Result` exactly where the text equals the subject,
    /// else `Pass`. After a `Result` the value of the next item with an equals sign is the result, and
    /// [`Switch::named`] isn't called for that item. Takes no memory.
    pub fn bare(&mut self, text: &Out) -> Turned
        ensures turned { result ≡ bare_item self.old text.now }
        ensures after { self.new ≡ after_bare_item self.old text.now }
    {
        self.default_before = self.default_before || is_default(text);
        if equal(text, &self.subject) {
            Turned::Result
        } else {
            Turned::Pass
        }
    }
}
