//! Vectors and worked rows, as tests of the public calls of the crates that they are about. No other crate stands on
//! this one.
#![tactic(auto)]

#[cfg(test)]
mod bridging;
#[cfg(test)]
mod parities;
#[cfg(test)]
mod requests;
#[cfg(test)]
mod retiming;
#[cfg(test)]
mod signals;
#[cfg(test)]
mod squelching;
