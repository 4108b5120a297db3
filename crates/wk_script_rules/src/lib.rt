//! The rules of a script over the whole wiki, as definitions: what each line is and is answered with, the tickets that are
//! out, and what all lines are answered with.
//! Nothing here runs. The contracts of the crates above cite `specs/`.
#![tactic(auto)]
