//! What a list of a tree holds, and how the lists and nodes of a tree are named.

/// A node of a tree: how many nodes stand behind it in a walk from the root, which meets each node before those that
/// stand in it, in the order of the text.
#[derive(Clone, Copy, PartialEq, Eq)]
pub struct NodeId(pub(crate) u32);

/// A list of a tree.
#[derive(Clone, Copy, PartialEq, Eq)]
pub enum ListId {
    /// The whole tree.
    Root,
    /// The title part of a node.
    Title(NodeId),
    /// The name of a further part of a node. The first is part 0.
    Name(NodeId, usize),
    /// The value of a further part of a node. The first is part 0.
    Value(NodeId, usize),
}

/// An item of a list. Places and lengths are of the selected text, in bytes.
#[derive(Clone, Copy, PartialEq, Eq)]
pub enum Item {
    /// Plain text, as much of it as stands together.
    Plain {
        /// The place of its first byte.
        start: u32,
        /// How many bytes it has.
        len: u32,
    },
    /// An element whose source is sealed.
    Sealed {
        /// The place of its first byte.
        start: u32,
        /// How many bytes it has.
        len: u32,
    },
    /// A comment, an element or a tag that gives nothing.
    Nothing {
        /// The place of its first byte.
        start: u32,
        /// How many bytes it has.
        len: u32,
    },
    /// A node.
    Node(NodeId),
}
