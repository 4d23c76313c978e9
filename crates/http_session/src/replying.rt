//! The trait of what replies to the requests of a session.

ghost use Rattle.std.specs.Prelude.{◌≡◌, ◌⊎◌, [], IfOk, OnErr, string_bytes};
ghost use Rattle.http.specs.StatusCode.{IsStatusCode};
ghost use Rattle.http_session.specs.Machine.{Asked, Reply};

use grid_exact::NoMemory;
use http::Method;
use std::alloc::Global;

/// The reply to a request, without its body.
#[derive(Clone, Copy, Debug, PartialEq, Eq)]
pub struct Response {
    /// The status number.
    pub status: u16,
    /// Where the route has another method than the request: whether that method is GET; if not it is POST.
    pub allow: Option<bool>,
    ghost good: { IsStatusCode status },
}

/// Replies to the requests of a session, one after another. Its value is the state of the session.
pub trait Replying {
    /// A request and its reply take one state to the next: the state before, the request, the reply, the state after.
    ghost step: { Self → Asked → Reply → Self → Type 0 };

    /// Replies to a request. The body is written into `text`.
    ///
    /// # Errors
    ///
    /// `NoMemory` where memory ran out. The state is then the one before the request, or the one after it, and a part of the body may be in the
    /// text.
    fn reply(
        &mut self,
        alloc: Global,
        method: &Method,
        target: &[u8],
        body: &[u8],
        text: &mut String,
    ) -> Result<Response, NoMemory>
        requires empty { string_bytes text.old ≡ [] }
        ensures reply { IfOk result (λ r. step self.old
            (record { method = method.now; target = target.now; body = body.now })
            (record { status = r.status; allow = r.allow; body = string_bytes text.new }) self.new) }
        ensures made { OnErr result ((self.new ≡ self.old) ⊎ ((reply : Reply) × step self.old
            (record { method = method.now; target = target.now; body = body.now }) reply self.new)) };
}
