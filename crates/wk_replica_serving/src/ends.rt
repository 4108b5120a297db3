//! Why no more lines of a feed are taken.

/// Why no more lines of a feed are taken.
#[derive(Clone, Copy, PartialEq, Eq)]
pub enum FeedEnd {
    /// The input is at its end.
    Ended,
    /// The line with this number, counted from 1, is bad; or it isn't there, where the input ended before the line of the start.
    Bad(u64),
    /// A read of the input failed.
    ReadFault,
    /// 2^40 bytes were read.
    Bound,
    /// Memory ran out.
    Memory,
}
