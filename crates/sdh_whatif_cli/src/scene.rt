//! What a table is made from.
use crate::own::OwnFailures;
use sdh_plan::Plan;
use sdh_verdicts::Sides;

/// A plan, the sides of its ring as its script leaves them, and the user's own failures.
#[derive(Clone, Copy)]
pub struct Scene<'a> {
    pub plan: &'a Plan,
    pub sides: &'a Sides<'a>,
    pub own: &'a OwnFailures,
}
