//! What trials of live sheets and trials of live runs share.
//!
//! The hold of a gate, which keeps a thread until others have come as far, or until its limit. No contract speaks of
//! it.
//!
//! Nothing is below, and trials alone are above. A crate of its own has the hold once, proved beside the crates on
//! which the trials wait.
#![tactic(auto)]

mod holds;

pub use holds::hold;
