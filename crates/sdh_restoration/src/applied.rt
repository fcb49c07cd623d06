//! The applied set: which spans a ring switches away from.
ghost use Rattle.std.specs.Prelude.{◌≡◌, ◌<◌, ◌+◌, ◌==◌, length, map, count_by, max, slice_index};
ghost use Rattle.sdh_ringmap.specs.Requests.{code_number};
ghost use Rattle.sdh_restoration.specs.Applied.{highest, applies, is_applied};
ghost use Rattle.sdh_restoration.specs.Locals.{requests_of};

use sdh_ringmap::{Code, Span};

/// The local requests on the two sides of a node.
#[derive(Clone, Copy, Debug, PartialEq, Eq)]
pub struct LocalRequests {
    pub west: Code,
    pub east: Code,
}

// Returns the larger of two requests.
fn larger(one: Code, other: Code) -> Code
    ensures { code_number result ≡ max (code_number one) (code_number other) }
{
    if one.number() < other.number() {
        other
    } else {
        one
    }
}

/// Returns the request of a span: the larger local request of its two ends. `local` has the local requests of each
/// position, from 0 on.
#[tactic(auto, using(crate::proofs::Spans::request_of_span))]
pub fn span_request(local: &[LocalRequests], span: Span) -> Code
    requires { span.0 < length local.now }
    ensures { code_number result ≡ slice_index (requests_of local.now) span.0 }
{
    let west_end = local[span.0 as usize];
    let east_end = local[(span.0 as usize + 1) % local.len()];
    larger(west_end.east, east_end.west)
}

// Returns the highest number of these requests' codes, 0 where there is no request.
fn highest(requests: &[Code]) -> u8
    ensures { result ≡ highest (map code_number requests.now) }
{
    let mut most = 0;
    for request in requests {
        most = request.number().max(most);
    }
    most
}

// Returns the number of requests whose code has this number.
fn count_of(requests: &[Code], number: u8) -> usize
    ensures { result ≡ count_by (λ r. code_number r == number) requests.now }
{
    requests
        .iter()
        .filter(|request| request.number() == number)
        .count()
}

/// Returns whether a span is in the applied set, from the requests of all spans of the ring.
#[tactic(auto, unfolding(crate::specs::Applied::applies))]
pub fn is_applied(requests: &[Code], span: Span) -> bool
    requires { span.0 < length requests.now }
    ensures { result ≡ is_applied (map code_number requests.now) span.0 }
{
    let most = highest(requests);
    let number = requests[span.0 as usize].number();
    if most >= 11 {
        number >= 11
    } else {
        most > 0 && count_of(requests, most) == 1 && number == most
    }
}
