//! How a run ends as its script did.
ghost use Rattle.std.specs.Prelude.{◌≡◌, ◌≤◌, ◌++◌, length};

use sdh_report::{Status, Text};
use sdh_shell::Ends;

/// Returns the ending of a run that ends as its script did, and appends its last line.
pub fn end_as_script<E: Ends>(status: Status, line: &mut Text) -> E
    requires room { 96 ≤ line.old.room }
    ensures ending { result ≡ E.endings.of status }
    ensures line { line.new.bytes ≡ line.old.bytes ++ E.endings.line result }
    ensures short { length (E.endings.line result) ≤ 96 }
{
    let ending = E::of(status);
    ending.put_line(line);
    ending
}
