//! What follows for the points of all replies of a session.
ghost use Rattle.std.specs.Prelude.{ℕ, List, length};
ghost use Rattle.wk_wiki_rules.specs.Passes.{PassSeen};
ghost use Rattle.wk_http.specs.declared.report.Refresh.{Refresh};
ghost use Rattle.wk_http.specs.declared.report.SessionEnd.{SessionEnd};
ghost use Rattle.wk_replica_reads.specs.Sessions.{IsReadSession, LinkSeen};
ghost use Rattle.wk_replica_laws.specs.Points.{NeverFall};

/// The points that the replies of a session with a replica show don't fall, and the first is no less than what the pass had seen.
pub fn points_of_reads_never_fall()
    ensures { (old new : PassSeen) (before after : LinkSeen) (end : SessionEnd) (points : List ℕ) (jobs : ℕ) (refreshes : List (ℕ × Refresh))
        → IsReadSession old new before after end points jobs refreshes → NeverFall (length old.journal) points }
{}
