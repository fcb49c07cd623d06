//! What tests of several calls give these: a plan, scripts, and words. No crate of the product stands on this one.
#![tactic(auto)]

use std::alloc::{AllocError, Global};

/// The smallest ordinary plan: three nodes and a circuit between two neighbours.
pub const SMALLEST: &str = r#"rate = 4
nodes = [1, 2, 3]
threshold = 3
wait = 10
limit = 1000
script = ["settle"]
[[circuit]]
name = "c1"
from = 1
to = 2
slot = 1
text_a = "ALPHA"
text_b = "BETA!"
"#;

/// Returns a plan with the steps of another script, which are quoted texts with commas between them. The plan's own is
/// one settle step.
pub fn scripted(alloc: Global, plan: &str, script: &str) -> Result<String, AllocError> {
    plan.replacen(alloc, "\"settle\"", script, 1)
}

/// Returns words as a call takes them.
pub fn words_of(alloc: Global, words: &[&str]) -> Result<Vec<String>, AllocError> {
    let mut list = Vec::new(alloc);
    for word in words {
        list.push(String::from_str(alloc, word)?)?;
    }
    Ok(list)
}
