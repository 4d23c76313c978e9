//! Sessions of HTTP over links in memory, with reads, writes and a reply that fail.

ghost use Rattle.std.specs.Prelude.{◌≡◌, ◌+◌, ◌-◌, ◌^◌, None, min};

use grid_exact::{Bytes, NoMemory};
use http::Method;
use http_session::{Replying, Response, session};
use oe_http::{Ended, FakeLink, FakeSink, FakeSource};
use std::alloc::Global;
use std::marker::Model;
use std::test::Fail;

/// Replies to a request by its target, and counts its replies. For a request with a body it has no memory.
#[derive(Drop)]
struct Echo {
    requests: u64,
}

impl Model for Echo {
    ghost use Rattle.std.specs.Prelude.{ℕ};

    ghost Value = { ℕ };

    ghost view = { λ e. e.requests };
}

impl Replying for Echo {
    ghost use Rattle.std.specs.Prelude.{◌≡◌, ◌+◌, ◌-◌, ◌^◌, None, min};

    ghost step = { λ s asked reply t. (t ≡ min (s + 1) (2 ^ 64 - 1)) × (reply.status ≡ 200) × (reply.allow ≡ None) × (reply.body ≡ asked.target) };

    fn reply(
        &mut self,
        _alloc: Global,
        _method: &Method,
        target: &[u8],
        body: &[u8],
        text: &mut String,
    ) -> Result<Response, NoMemory> {
        if !body.is_empty() {
            return Err(NoMemory);
        }
        let Ok(place) = str::from_utf8(target) else {
            return Err(NoMemory);
        };
        text.push_str(place)?;
        self.requests = self.requests.saturating_add(1);
        Ok(Response {
            status: 200,
            allow: None,
        })
    }
}

const A: &[u8] = b"GET /a HTTP/1.1\r\n\r\n";

const A_TOLD: &str = "HTTP/1.1 200 OK\r\nContent-Type: text/plain\r\nContent-Length: 2\r\n\r\n/a";

/// A text so many times.
fn times(alloc: Global, text: &[u8], count: u8) -> Result<Vec<u8>, Fail> {
    let mut all = Vec::new(alloc);
    for _ in 0..count {
        all.extend_from_slice(text)?;
    }
    Ok(all)
}

/// A link with these bytes, of which at most `most` come in one read, and whose read and write of these numbers fail (none: 0).
fn link(
    alloc: Global,
    bytes: Vec<u8>,
    most: usize,
    read: u64,
    write: u64,
) -> Result<FakeLink, Fail> {
    let source = FakeSource::new(Bytes::from_vec(bytes), most.max(1), vec![in alloc; read]?);
    let sink = FakeSink::new(alloc, 1000, vec![in alloc; write]?)?;
    Ok(FakeLink::new(source, sink))
}

#[test]
fn what_is_written_for_requests_that_come_at_once(rt: HostRuntime) -> Result<(), Fail> {
    let alloc = rt.alloc();
    // how many requests come first, what comes behind them, the read and the write that fail (none: 0), how the session ends, how many
    // responses are written first, and what is written behind them
    let table = [
        // responses are gathered: there is no second write
        (3, "", 0, 2, Ended::Closed, 3, ""),
        // the first write comes before the second read
        (1, "GET /b HT", 2, 1, Ended::WriteFault, 0, ""),
        // want of memory is told, and the session ends
        (
            1,
            "POST /b HTTP/1.1\r\ncontent-length: 1\r\n\r\nbGET /c HTTP/1.1\r\n\r\n",
            0,
            0,
            Ended::NoMemory,
            1,
            "HTTP/1.1 507 Insufficient Storage\r\nContent-Type: text/plain\r\nContent-Length: 0\r\nConnection: close\r\n\r\n",
        ),
    ];
    for (first, more, read, write, ended, responses, told) in table {
        let mut bytes = times(alloc, A, first)?;
        bytes.extend_from_slice(more.as_bytes())?;
        let mut link = link(alloc, bytes, 4096, read, write)?;
        assert_eq!(rt; session(alloc, &mut Echo { requests: 0 }, &mut link), ended);
        let mut wanted = times(alloc, A_TOLD.as_bytes(), responses)?;
        wanted.extend_from_slice(told.as_bytes())?;
        assert_eq!(rt; link.sink().bytes(), wanted.as_slice());
    }
    Ok(())
}

/// Three requests come byte by byte: each of their bytes is a read, one more finds the end, and each response is a write.
#[test]
fn a_link_that_fails_at_each_call(rt: HostRuntime) -> Result<(), Fail> {
    let alloc = rt.alloc();
    // the read that fails, the write that fails (none: 0), how the session ends, and how many responses are written
    let mut table = Vec::new(alloc);
    let mut call: u64 = 0;
    for told in 0..3u8 {
        table.push((0, u64::from(told) + 1, Ended::WriteFault, told))?;
        for _ in A {
            call = call.saturating_add(1);
            table.push((call, 0, Ended::ReadFault, told))?;
        }
    }
    table.push((call.saturating_add(1), 0, Ended::ReadFault, 3))?;
    table.push((call.saturating_add(2), 4, Ended::Closed, 3))?;
    for (read, write, ended, told) in table {
        let mut link = link(alloc, times(alloc, A, 3)?, 1, read, write)?;
        let mut desk = Echo { requests: 0 };
        assert_eq!(rt; session(alloc, &mut desk, &mut link), ended);
        let wanted = times(alloc, A_TOLD.as_bytes(), told)?;
        assert_eq!(rt; link.sink().bytes(), wanted.as_slice());
        // the response that could not be written was the last one asked for
        let lost = if ended == Ended::WriteFault { 1 } else { 0 };
        assert_eq!(rt; desk.requests, u64::from(told).saturating_add(lost));
    }
    Ok(())
}
