//! Laws on the progress of threads that share locks and a match. The functions have no body; their contracts are the
//! theorems. They speak of a model of the server's threads, `specs/Sessions.antt`, whose steps are what a session does
//! under the lock of its match.

#![tactic(auto)]

pub mod laws;
