//! Local requests.

use sdh_request::{Command, Defect, Local, Moment};
use sdh_ringmap::Code;

#[test]
fn waits_by_moments_alone(rt: HostRuntime) {
    let mut local = Local::new(10);
    local.see(Defect::Sf);
    local.see(Defect::None);
    assert!(rt; local.request() == Code::Wtr);
    local.see(Defect::None);
    local.see(Defect::None);
    assert!(rt; local.request() == Code::Wtr);
    local.at_moment(Moment(9));
    local.see(Defect::None);
    local.see(Defect::None);
    assert!(rt; local.request() == Code::Wtr);
    local.command(Command::Manual);
    assert!(rt; local.request() == Code::Ms);
    local.command(Command::Clear);
    assert!(rt; local.request() == Code::Wtr);
    local.at_moment(Moment(10));
    assert!(rt; local.request() == Code::Nr);
}
