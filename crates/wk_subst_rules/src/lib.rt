//! The rules of substitution, as definitions: what a text becomes before it is saved, where the templates that it calls by
//! `subst:` are to be put in. The contracts of the crates above cite `specs/`.
//! Nothing here runs.
#![tactic(auto)]
