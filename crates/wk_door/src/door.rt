// The trait of what connections come in by.
ghost use Rattle.std.specs.Prelude.{◌≡◌, ℕ, ◌≤◌, IfOk, OnErr, OnOk, Option};
ghost use Rattle.wk_base.specs.Faults.{Rose};
ghost use Rattle.wk_door.specs.Told.{DoorTold, IsAccepted, listening};

use wk_base::Failed;
use wk_link::Link;

/// What connections come in by.
pub trait Door: Drop {
    /// A connection that came in.
    type Link: Link;

    /// The address at which it listens, how many links it has given, and the links that are left, where the door tells
    /// them. A door that tells them goes on telling them.
    ghost told: { Self → Option (DoorTold Self.Link) };

    /// How many calls have failed, of both kinds together. It stops at the end of `u64`.
    ghost faults: { Self → ℕ };

    /// Listens at this address from now on. The links that were given and those that are left stay what they are.
    ///
    /// `Failed` comes only where the count of faults rose in this call, or stands at its end. What the door tells is then
    /// as it was. Where the answer is `Ok` the count is as it was.
    fn listen(&mut self, address: &str) -> Result<(), Failed>
        ensures listens { OnOk result (told self.new ≡ listening (told self.old) address.now) }
        ensures refused { OnErr result (told self.new ≡ told self.old) }
        ensures never_falls { faults self.old ≤ faults self.new }
        ensures no_fault { OnOk result (faults self.new ≡ faults self.old) }
        ensures cause { OnErr result (Rose (faults self.old) (faults self.new)) };

    /// Gives the first link that is left, and goes on listening at the same address. `None` comes exactly where the door
    /// tells its links and none is left: it changes nothing of what the door tells.
    ///
    /// `Failed` comes only where the count of faults rose in this call, or stands at its end. What the door tells is then
    /// as it was. Where the answer is `Ok` the count is as it was.
    fn accept(&mut self) -> Result<Option<Self::Link>, Failed>
        ensures given { IfOk result (IsAccepted (told self.old) (told self.new)) }
        ensures refused { OnErr result (told self.new ≡ told self.old) }
        ensures never_falls { faults self.old ≤ faults self.new }
        ensures no_fault { OnOk result (faults self.new ≡ faults self.old) }
        ensures cause { OnErr result (Rose (faults self.old) (faults self.new)) };
}
