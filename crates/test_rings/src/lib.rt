//! Rings whose spans change and whose controllers are held while they switch, as tests: whose bytes ports get. No other
//! crate stands on this one.
#![tactic(auto)]

#[cfg(test)]
mod plants;
#[cfg(test)]
mod rings;
#[cfg(test)]
mod scripts;
#[cfg(test)]
mod strangers;
