//! Replies to HTTP requests, over anything that answers records.

ghost use Rattle.std.specs.Prelude.{◌≡◌, [], List, ℕ, OnErr, OnOk, string_bytes};
ghost use Rattle.http_session.specs.Replying.{AnswersRecord};

use crate::status::{NOT_ALLOWED, NOT_FOUND, status_of};
use crate::{Replying, Response};
use grid_exact::{LINE_LIMIT, NoMemory};
use http::Method;
use http_messages::{Routed as Found, Routes};
use oe_http::Answering;
use std::alloc::Global;
use wire_replies::{Refusal, Reply, append_reply};

/// Replies to requests by the routes: the record for a request is answered as a line is.
#[derive(Drop)]
pub struct Routed<F: Answering> {
    routes: Routes,
    desk: F,
}

impl<F: Answering> Routed<F> {
    /// Replies to requests over this answerer of records.
    pub fn new(routes: Routes, desk: F) -> Self
        ensures { result.desk ≡ desk }
    {
        Routed { routes, desk }
    }
}

/// Writes the reply to a record into an empty text.
fn answer_record<F: Answering>(desk: &mut F, line: &[u8], text: &mut String) -> Result<(), NoMemory>
    requires empty { string_bytes text.old ≡ [] }
    ensures ok { OnOk result (AnswersRecord F.step desk.old line.now
        (string_bytes text.new) desk.new) }
    ensures made { OnErr result ((reply : List ℕ)
        × AnswersRecord F.step desk.old line.now reply desk.new) }
{
    if line.is_empty() {
        return append_reply(text, &Reply::Refused(Refusal::Malformed { field: 1 }));
    }
    if line.len() > LINE_LIMIT {
        return desk.answer_long(text);
    }
    desk.answer(line, text)
}

impl<F: Answering> Replying for Routed<F> {
    ghost use Rattle.http_session.specs.Replying.{Replies};

    ghost step = { λ s asked reply t. Replies F.step s.desk asked reply t.desk };

    fn reply(
        &mut self,
        alloc: Global,
        method: &Method,
        target: &[u8],
        body: &[u8],
        text: &mut String,
    ) -> Result<Response, NoMemory> {
        match self.routes.find(alloc, method, target, body) {
            Found::Record(line) => {
                answer_record(&mut self.desk, line.as_slice(), text)?;
                Ok(Response {
                    status: status_of(text.as_bytes()),
                    allow: None,
                })
            }
            Found::NotFound => Ok(Response {
                status: NOT_FOUND,
                allow: None,
            }),
            Found::NotAllowed { get } => Ok(Response {
                status: NOT_ALLOWED,
                allow: Some(get),
            }),
            Found::NoMemory => Err(NoMemory),
        }
    }
}
