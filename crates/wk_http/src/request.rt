//! A whole request.
use wk_wire_rules::Method;

/// A whole message of a connection, with the parts of its head that the program looks at.
#[derive(PartialEq, Eq, Drop)]
pub struct HttpRequest {
    /// The method (RFC 9110 section 9).
    pub method: Method,
    /// The target up to its first `?`, or all of it, as it was sent.
    pub path: String,
    /// What stands after that `?`, or nothing.
    pub query: Vec<u8>,
    /// The body, of at most 8,388,608 bytes.
    pub body: Vec<u8>,
    /// A `Content-Type` begins with `multipart/`.
    pub multipart: bool,
    /// No message follows it: a `Connection` is `close`, or the version is HTTP/1.0.
    pub last: bool,
}

/// An answer of [`Feed::next`](crate::Feed::next).
#[derive(PartialEq, Eq, Drop)]
pub enum Next {
    /// The next whole message.
    Whole(HttpRequest),
    /// No whole message and no bad place is there until more bytes are pushed.
    More,
    /// A bad place, with its status: 400, 411, 413 or 501.
    Bad(u16),
}
