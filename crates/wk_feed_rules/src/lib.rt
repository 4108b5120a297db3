//! The rules of a feed, as definitions: the lines that tell how a wiki began and what its events were, and the wiki that lines tell,
//! or the number of the first bad one.
//! Nothing here runs. The contracts of the crates above cite `specs/`.
#![tactic(auto)]
