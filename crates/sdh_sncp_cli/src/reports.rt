//! The text of a report.
ghost use Rattle.std.specs.Prelude.{◌≡◌, ◌+◌, ◌≤◌, ◌++◌, length};
ghost use Rattle.sdh_report.specs.Reports.{report_text};
ghost use Rattle.sdh_scripts.specs.Ports.{lines_room};
ghost use Rattle.sdh_sncp_cli.specs.Reports.{path_ring_report};

use sdh_report::Text;
use sdh_scripts::{put_ports, put_settle};
use sdh_sncp::PathRing;

/// Appends the report of settle step `number`, counted from 1.
#[tactic(auto, unfolding(crate::specs::Reports::path_ring_report))]
pub fn put_report(text: &mut Text, ring: &PathRing, number: u32)
    requires ran { 1 ≤ ring.now.rounds }
    requires room { lines_room (length ring.now.circuits.circuits) ≤ text.old.room }
    ensures bytes { text.new.bytes ≡ text.old.bytes ++ report_text (path_ring_report number ring.now) }
    ensures room { text.old.room ≤ text.new.room + lines_room (length ring.now.circuits.circuits) }
{
    put_settle(text, number, ring.rounds());
    put_ports(text, ring);
}
