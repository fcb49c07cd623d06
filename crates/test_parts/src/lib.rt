//! The parts of nodes, as tests of what no text of a program tells: frames that are read, pointers, payloads and
//! watches on them, degraded fibres, K words and steps of nodes; and std's readers and writers. No other crate stands
//! on this one.
#![tactic(auto)]

#[cfg(test)]
mod fibres;
#[cfg(test)]
mod frames;
#[cfg(test)]
mod kbytes;
#[cfg(test)]
mod outside;
#[cfg(test)]
mod payloads;
#[cfg(test)]
mod pointers;
#[cfg(test)]
mod sections;
#[cfg(test)]
mod steps;
#[cfg(test)]
mod watches;
