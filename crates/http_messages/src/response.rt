//! Writes whole responses.

ghost use Rattle.std.specs.Prelude.{◌≡◌, ◌≤◌, ◌<◌, List, ℕ, [], ◌++◌, OnOk, OnErr, IfOk, IsErrOf, length, unwrap_or};
ghost use Rattle.std.specs.Io.KnownBytes.{Appends, Keeps};
ghost use Rattle.std.specs.String.{string_bytes};
ghost use Rattle.http.specs.StatusCode.{IsStatusCode, reason_phrase};
ghost use Rattle.oe_http.specs.Causes.{Rose};
ghost use Rattle.oe_http.specs.Written.{Sent};
ghost use Rattle.http_messages.specs.Responses.{head_text, response_text, allow_line, close_line};

use http::StatusCode;
use oe_http::{Sink, write_whole};
use std::alloc::{AllocError, Global};

/// Why a response was not written whole.
#[derive(Clone, Copy, Debug, PartialEq, Eq)]
pub enum SendErr {
    /// The sink failed.
    WriteFault,
    /// Memory was refused.
    NoMemory,
}

/// The `Allow` line with the one method of a route.
fn allow_text(allow: Option<bool>) -> &'static str
    ensures { result.now ≡ allow_line allow }
{
    match allow {
        None => "",
        Some(true) => "Allow: GET\r\n",
        Some(false) => "Allow: POST\r\n",
    }
}

/// The `Connection: close` line.
fn close_text(close: bool) -> &'static str
    ensures { result.now ≡ close_line close }
{
    if close {
        return "Connection: close\r\n";
    }
    ""
}

/// The phrase of a status.
fn phrase_of(status: u16) -> &'static str
    requires { IsStatusCode status }
    ensures { result.now ≡ unwrap_or (reason_phrase status) [] }
{
    match StatusCode::from_u16(status) {
        Ok(code) => match code.canonical_reason() {
            Some(phrase) => phrase,
            None => "",
        },
        Err(_) => "",
    }
}

/// The lines before the body.
fn head_of(
    alloc: Global,
    status: u16,
    allow: Option<bool>,
    len: usize,
    close: bool,
) -> Result<String, AllocError>
    requires { IsStatusCode status }
    ensures { IfOk result (λ text. string_bytes text ≡ head_text status allow len close) }
{
    let phrase = phrase_of(status);
    let allow = allow_text(allow);
    let end = close_text(close);
    format!(in alloc;
        "HTTP/1.1 {status} {phrase}\r\nContent-Type: text/plain\r\nContent-Length: {len}\r\n{allow}{end}\r\n"
    )
}

/// Appends a response to a text. `allow` is given where the route has another method: GET where it is true, else POST.
/// `close` says that the session ends after it.
///
/// # Errors
///
/// `AllocError` where memory was refused. The text is then unchanged.
pub fn append_response(
    alloc: Global,
    text: &mut Vec<u8>,
    status: u16,
    allow: Option<bool>,
    body: &[u8],
    close: bool,
) -> Result<(), AllocError>
    requires { IsStatusCode status }
    ensures ok { OnOk result (text.new.items
        ≡ text.old.items ++ response_text status allow body.now close) }
    ensures err { OnErr result (text.new.items ≡ text.old.items) }
{
    let head = head_of(alloc, status, allow, body.len(), close)?;
    let whole = text.len();
    text.extend_from_slice(head.as_bytes())?;
    if text.extend_from_slice(body).is_err() {
        text.truncate(whole);
        return Err(AllocError);
    }
    Ok(())
}

/// Writes a response, as [`append_response`] appends it.
///
/// # Errors
///
/// `WriteFault` where the sink fails: a front of the response was then written. `NoMemory` where memory ran out:
/// nothing was written.
pub fn write_response<O: Sink>(
    alloc: Global,
    link: &mut O,
    status: u16,
    allow: Option<bool>,
    body: &[u8],
    close: bool,
) -> Result<(), SendErr>
    requires { IsStatusCode status }
    ensures ok { OnOk result (Sent (O.held link.old) (O.held link.new)
        (response_text status allow body.now close) []) }
    ensures fault { IsErrOf result SendErr.WriteFault
        → (rest : List ℕ) × Sent (O.held link.old) (O.held link.new)
        (response_text status allow body.now close) rest }
    ensures memory { IsErrOf result SendErr.NoMemory → Keeps (O.held link.old) (O.held link.new) }
    ensures beside { O.beside link.new ≡ O.beside link.old }
    ensures later { O.faults link.old ≤ O.faults link.new }
    ensures cause { IsErrOf result SendErr.WriteFault
        → Rose (O.faults link.old) (O.faults link.new) }
{
    let mut text = Vec::new(alloc);
    match append_response(alloc, &mut text, status, allow, body, close) {
        Ok(()) => match write_whole(link, &text) {
            Ok(()) => Ok(()),
            Err(_) => Err(SendErr::WriteFault),
        },
        Err(_) => Err(SendErr::NoMemory),
    }
}
