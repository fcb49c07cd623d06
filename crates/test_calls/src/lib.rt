//! Calls of the programs over objects in memory, as tests: what is outside failing in mid-stream, too little memory,
//! and fibres of other kinds; worked plans; and the large plan. No other crate stands on this one.
#![tactic(auto)]

#[cfg(test)]
mod calls;
#[cfg(test)]
mod changed;
#[cfg(test)]
mod drawn;
#[cfg(test)]
mod dropped;
#[cfg(test)]
mod faults;
#[cfg(test)]
mod losses;
#[cfg(test)]
mod others;
#[cfg(test)]
mod rows;
#[cfg(test)]
mod stops;
#[cfg(test)]
mod streams;
#[cfg(test)]
mod sweeps;
#[cfg(test)]
mod texts;
#[cfg(test)]
mod works;
