//! The rules of a session over a connection, as definitions: what a message is answered, what a refresh step behind it did,
//! and how a session goes and ends.
//! Nothing here runs. The contracts of the crates above cite `specs/`.
#![tactic(auto)]
