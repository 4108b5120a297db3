//! What each step on the table tells.
ghost use Rattle.wk_turn.specs.Line.{called, counted, drew, looked, marked, handed_on, ended, told, joined, spent, newcomer};
ghost use Rattle.std.specs.Prelude.{None};

use crate::board::View;
use crate::storied::Storied;
use atomic_table::{Join, Play, Split};

pub(crate) struct Count;

impl<S, A, E> Play<Option<S>, View<A, E>> for Count {
    ghost then = { counted };
}

pub(crate) struct Draw;

impl<S, A, E> Play<Option<S>, View<A, E>> for Draw {
    ghost then = { drew };
}

pub(crate) struct Look;

impl<S: Storied> Play<Option<S>, View<S::Start, S::Entry>> for Look {
    ghost then = { looked S.start S.journal S.closes };
}

pub(crate) struct Mark;

impl<S: Storied> Play<Option<S>, View<S::Start, S::Entry>> for Mark {
    ghost then = { marked S.start S.journal S.closes };
}

pub(crate) struct HandOn;

impl<S, A, E> Play<Option<S>, View<A, E>> for HandOn {
    ghost then = { handed_on };
}

pub(crate) struct Call;

impl<S, A, E> Play<Option<S>, View<A, E>> for Call {
    ghost then = { called };
}

pub(crate) struct End;

impl<S, A, E> Play<Option<S>, View<A, E>> for End {
    ghost then = { ended };
}

pub(crate) struct Tell;

impl<S: Storied> Play<Option<S>, View<S::Start, S::Entry>> for Tell {
    ghost then = { told S.start S.journal S.closes };
}

pub(crate) struct Copy;

impl<A, E> Split<View<A, E>> for Copy {
    ghost left = { λ v. record v { seats = 0 } };

    ghost right = { λ v. newcomer v.start v.seen };
}

pub(crate) struct Glue;

impl<A, E> Join<View<A, E>> for Glue {
    ghost both = { joined };

    ghost spent = { spent };
}
