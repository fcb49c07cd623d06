//! The laws of rings over honest fibres: what nodes hear, what ports deliver, whose bytes come, how soon a ring comes
//! to rest, what rest is, and how soon all is restored. Each function is a law: it does nothing, and its contract is
//! the law, whose words are in `specs/`.
#![tactic(auto)]

pub mod carrying;
pub mod converging;
pub mod hearing;
pub mod resting;
pub mod restoring;
pub mod strangers;
