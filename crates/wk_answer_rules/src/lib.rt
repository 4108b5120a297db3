//! The rules of answers, as definitions: the JSON value that each request is answered with in a state, the event that it
//! makes, and the errors.
//! Nothing here runs. The contracts of the crates above cite `specs/`.
#![tactic(auto)]
