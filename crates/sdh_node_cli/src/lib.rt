//! The one call of the program `sdhnode`: from the words of the command line and a source of bytes to an ending and a
//! text. The source has a plan and then records. One node of the plan's ring runs over the records, round by round.
//! What it shows and delivers in a round, and with the word `frames` what it sends, is written before more is read.
//!
//! `specs/Records.antt` defines the record of a line, `specs/Bench.antt` what it does with the node, and
//! `specs/Streams.antt` the bytes of a stream of records. `Tells` in `specs/Outcome.antt` defines what a call leads to.
#![tactic(auto)]

ghost use Rattle.sdh_node_cli.specs.Laws.{RecordsAreLong, RecordsAreTold};

mod answer;
mod arriving;
mod bench;
mod ending;
mod head;
mod line;
mod pair;
mod record;
mod rooms;
mod serving;
mod stop;
mod top;
mod turn;
mod words;

pub use ending::{Ending, Flaw};
pub use top::sdhnode;

/// The bytes that were read determine which records were done. So what is written is determined by what was read. The
/// function does nothing: its contract is the law.
pub fn records_are_told()
    ensures { RecordsAreTold }
{}

/// Once a part of a line has come, the program asks for no more bytes than every record that begins so still has. These
/// are bytes of its line, its newline byte and the first byte of a frame from the west. So no byte after a record is
/// asked for before the record is done. The function does nothing: its contract is the law.
pub fn records_are_long()
    ensures { RecordsAreLong }
{}
