//! Works on a ring at STM-16: a circuit in each slot of each span, and a side that is switched by command before its
//! span is opened, and after.
ghost use Rattle.std.specs.Prelude.{◌≤◌};

use crate::calls::{Given, SOUND, call};
use std::alloc::{AllocError, Global};

const HEAD: &str = "rate = 16
nodes = [1, 2, 3, 4]
threshold = 4
wait = 300
limit = 1000
script = [\"settle\", \"manual 2 east\", \"settle\", \"forced 2 east\", \"settle\", \"clear 2 east\", \"settle\"]
";

const NODES: u8 = 4;

const SLOTS: u8 = 8;

const IDLE: &str = "node 1 idle west 04 10 east 02 10
node 2 idle west 01 20 east 03 20
node 3 idle west 02 30 east 04 30
node 4 idle west 03 40 east 01 40
";

const MANUAL: &str = "node 1 pass west 63 2a east 62 3a
node 2 switch-east west 63 2a east 63 22
node 3 switch-west west 12 32 east 62 3a
node 4 pass west 63 2a east 62 3a
";

const FORCED: &str = "node 1 pass west d3 2a east d2 3a
node 2 switch-east west d3 2a east d3 22
node 3 switch-west west 12 32 east d2 3a
node 4 pass west d3 2a east d2 3a
";

// The line of each settle step, and those of the nodes.
const STEPS: [(&str, &str); 4] = [
    ("settle 1 round 128\n", IDLE),
    ("settle 2 round 256\n", MANUAL),
    ("settle 3 round 384\n", FORCED),
    ("settle 4 round 512\n", IDLE),
];

const AT_A: &str = " a norm 0 00424554412142455441214245544121\n";

const AT_B: &str = " b norm 0 00414c504841414c504841414c504841\n";

// Adds the name of the circuit in a slot from a node to its neighbour in the east: `l`, the slot, and the node.
fn put_name(text: &mut String, slot: u8, node: u8) -> Result<(), AllocError>
    requires slot { slot ≤ 9 }
    requires node { node ≤ 9 }
{
    text.push('l')?;
    text.push((b'0' + slot) as char)?;
    text.push('-')?;
    Ok(text.push((b'0' + node) as char)?)
}

fn put_circuit(text: &mut String, slot: u8, node: u8) -> Result<(), AllocError>
    requires slot { slot ≤ 9 }
    requires node_first { 1 ≤ node }
    requires node_last { node ≤ 4 }
{
    let next = if node == NODES { 1 } else { node + 1 };
    text.push_str("[[circuit]]\nname = \"")?;
    put_name(text, slot, node)?;
    text.push_str("\"\nfrom = ")?;
    text.push((b'0' + node) as char)?;
    text.push_str("\nto = ")?;
    text.push((b'0' + next) as char)?;
    text.push_str("\nslot = ")?;
    text.push((b'0' + slot) as char)?;
    Ok(text.push_str("\ntext_a = \"ALPHA\"\ntext_b = \"BETA!\"\n")?)
}

fn put_ports(text: &mut String, slot: u8, node: u8) -> Result<(), AllocError>
    requires slot { slot ≤ 9 }
    requires node { node ≤ 9 }
{
    text.push_str("port ")?;
    put_name(text, slot, node)?;
    text.push_str(AT_A)?;
    text.push_str("port ")?;
    put_name(text, slot, node)?;
    Ok(text.push_str(AT_B)?)
}

// Returns the plan: its circuits stand slot by slot.
fn document(alloc: Global) -> Result<String, AllocError> {
    let mut text = String::from_str(alloc, HEAD)?;
    for place in 0..SLOTS * NODES {
        put_circuit(&mut text, place / NODES + 1, place % NODES + 1)?;
    }
    Ok(text)
}

fn put_report(text: &mut String, step: (&str, &str)) -> Result<(), AllocError> {
    text.push_str(step.0)?;
    text.push_str(step.1)?;
    for place in 0..SLOTS * NODES {
        put_ports(text, place / NODES + 1, place % NODES + 1)?;
    }
    Ok(())
}

// Returns what is written: in each report all ports have their customers' bytes.
fn report(alloc: Global) -> Result<String, AllocError> {
    let mut text = String::new(alloc);
    for step in STEPS {
        put_report(&mut text, step)?;
    }
    text.push_str("done\n")?;
    Ok(text)
}

fn keeps_all(alloc: Global) -> Result<bool, AllocError> {
    let document = document(alloc)?;
    let given = Given {
        document: document.as_str(),
        ..SOUND
    };
    let (number, sink) = call(alloc, given)?;
    Ok(number == 0 && sink.bytes() == report(alloc)?.as_bytes())
}

#[test]
fn works_at_stm_16_keep_all_circuits(rt: HostRuntime) {
    assert!(rt; keeps_all(rt.alloc()) == Ok(true));
}
