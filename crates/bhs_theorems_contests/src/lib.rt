//! Contests whose agents were played by their strategies. Each contract is a law over the definitions that the
//! contracts of the server, of its clients and of `explore` cite; the functions do nothing.

#![tactic(auto)]

pub mod laws;
