//! How a session over a connection went.

/// How a session ended.
#[derive(Clone, Copy, Debug, PartialEq, Eq)]
pub enum SessionEnd {
    /// The input ended between two messages.
    PeerEnd,
    /// The input ended within a message.
    Cut,
    /// A message asked for the close.
    Closed,
    /// A bad place was met, and its status was answered.
    Bad(u16),
    /// The link's count of read faults rose.
    ReadFault,
    /// The link's count of write faults rose.
    WriteFault,
    /// 2^40 bytes were read.
    Bound,
    /// Memory ran out.
    Memory,
}

/// What a refresh step did.
#[derive(Clone, Copy, Debug, PartialEq, Eq)]
pub enum Refresh {
    /// No refresh job was queued, and no fan job stood.
    Idle,
    /// A fan job was served.
    Fanned,
    /// A page's rows were set.
    Done,
    /// A read was no longer current, and the job was given back.
    Back,
    /// The journal was full.
    JournalFull,
    /// The store failed.
    StoreFault,
    /// Memory ran out.
    Memory,
}

/// What a session did.
#[derive(PartialEq, Eq, Drop)]
pub struct SessionReport {
    /// How it ended.
    pub end: SessionEnd,
    /// The point of each reply of status 200, in order, also of one that wasn't written in full. A point is a length of the
    /// wiki's journal, in events.
    pub points: Vec<u64>,
    /// How many refreshes were done: the events Done among the session's own entries of the journal.
    pub jobs_run: u64,
    /// For each message that was answered in full, in order: the length of the journal that the session had seen behind its
    /// refresh step, and what the step did.
    pub refreshes: Vec<(u64, Refresh)>,
}
