//! A text whose delimiters are matched, as a flat list.

/// A token of the list. Each run of delimiters has as many tokens as delimiters while it may still be matched, so that what
/// becomes of its delimiters is written in their places (own).
#[derive(Clone, Copy, PartialEq, Eq)]
pub enum Token {
    /// Plain text.
    Plain {
        /// The place of its first byte.
        start: u32,
        /// How many bytes it has.
        len: u32,
    },
    /// Text that is sealed.
    Sealed {
        /// The place of its first byte.
        start: u32,
        /// How many bytes it has.
        len: u32,
    },
    /// Text that gives nothing.
    Nothing {
        /// The place of its first byte.
        start: u32,
        /// How many bytes it has.
        len: u32,
    },
    /// A bar that stands in a node and not in brackets.
    Bar {
        /// Its place.
        start: u32,
    },
    /// An equals sign that stands in a node and not in brackets.
    Equals {
        /// Its place.
        start: u32,
    },
    /// The opening braces of a node.
    NodeStart {
        /// Whether they are three.
        argument: bool,
        /// The place of the first.
        start: u32,
    },
    /// The closing braces of a node.
    NodeEnd,
    /// The place of a delimiter that belongs to the token before it.
    Fill,
}
