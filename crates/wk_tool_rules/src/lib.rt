//! The rules of the tools, as definitions: the pages whose stored rows differ, what is printed of a check, and the pages
//! that are generated.
//! Nothing here runs. The contracts of the crates above cite `specs/`.
#![tactic(auto)]
