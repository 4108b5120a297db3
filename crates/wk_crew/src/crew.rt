//! Who serves the links of a door.

use wk_link::Link;

/// What workers share that serve the links of a door. `R` is what they wait by, where they wait, and `W` what one worker has for itself.
pub trait Crew<R, W> {
    // The worker can serve by what is shared.
    ghost ready: { Self → W → Type 0 };

    /// Whether a further link is served.
    fn goes_on(&self, rt: &R) -> bool;

    /// Serves a link to its end, and does what is to be done behind it.
    fn serve<L: Link>(&self, rt: &R, worker: &mut W, link: &mut L)
        requires { ready self.now worker.old }
        ensures { ready self.now worker.new };
}
