//! The forms in which cases are listed.
ghost use Rattle.std.specs.Prelude.{◌≡◌, ◌+◌, ◌≤◌, ◌++◌, [], length, ◌==◌, if◌then◌else◌};
ghost use Rattle.sdh_whatif_cli.specs.Lines.{is_json, either};

use crate::ask::Form;
use crate::line::Line;

/// The form in which a case is listed, and the number that it has among all that are listed.
#[derive(Clone, Copy, Debug)]
pub struct Entry {
    pub form: Form,
    pub number: usize,
}

/// The three digits of a case's number: 0 is nothing, and the others are failures, first those of the ring, then the
/// user's own.
#[derive(Clone, Copy, Debug)]
pub struct Digits {
    pub first: usize,
    pub second: usize,
    pub third: usize,
}

/// Returns whether cases are listed in lines of JSON, and not in records of the table.
pub fn is_json(form: Form) -> bool
    ensures { result ≡ is_json form }
{
    match form {
        Form::Json => true,
        Form::Table | Form::Headed | Form::Summary => false,
    }
}

/// Appends `json` where the form is JSON, and `table` where it is the table.
pub fn put_either(line: &mut Line, form: Form, json: &[u8], table: &[u8])
    requires short { (length json.now ≤ 13) × (length table.now ≤ 13) }
    requires room { length line.old + 13 ≤ 20480 }
    ensures text { line.new ≡ line.old ++ either form json.now table.now }
    ensures short { length line.new ≤ length line.old + 13 }
{
    if is_json(form) {
        line.put(json);
    } else {
        line.put(table);
    }
}

/// Appends what stands between text number `i`, counted from 0, and the one before it; nothing before the first.
pub fn put_between(line: &mut Line, form: Form, json: &[u8], table: &[u8], i: usize)
    requires short { (length json.now ≤ 13) × (length table.now ≤ 13) }
    requires room { length line.old + 13 ≤ 20480 }
    ensures text { line.new ≡ line.old ++ (if i == 0 then [] else either form json.now table.now) }
    ensures short { length line.new ≤ length line.old + 13 }
{
    if i != 0 {
        put_either(line, form, json, table);
    }
}
