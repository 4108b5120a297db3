//! The rules of a connection, as definitions: what a request's head says and when it is refused, which messages a
//! stream of bytes holds and how it ends, and the bytes of a response.
//! Nothing here runs. The contracts of the crates above cite `specs/`.
#![tactic(auto)]

/// The method of a request (RFC 9110 section 9). Methods have case, so `get` is another one.
#[derive(Clone, Copy, PartialEq, Eq)]
pub enum Method {
    /// `GET`.
    Get,
    /// `POST`.
    Post,
    /// Any other token.
    Other,
}
