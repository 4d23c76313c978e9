//! A link over TCP.

ghost use Rattle.std.specs.Prelude.{◌≡◌, None, IfOk};

use oe_http::{Failed, Sink, Source, TwoWay};
use std::io;
use std::io::{Read, Write};
use std::net::TcpStream;
use std::time::Duration;

/// The longest wait of one read or one write, in seconds.
const WAIT_LIMIT: u64 = 60;

/// A stream of TCP, with a count of the reads that failed and one of the writes. A read or a write that waits a minute
/// has failed.
#[derive(Drop)]
pub struct TcpLink {
    stream: TcpStream,
    read_faults: u64,
    write_faults: u64,
}

impl TcpLink {
    /// A link over a stream, with no fault yet.
    ///
    /// # Errors
    ///
    /// The system's, where it sets no limit on the stream's waits.
    pub fn new(stream: TcpStream) -> io::Result<TcpLink>
        ensures faults { IfOk result (λ link. (link.read_faults ≡ 0) × (link.write_faults ≡ 0)) }
    {
        let wait = Some(Duration::from_secs(WAIT_LIMIT));
        stream.set_read_timeout(wait)?;
        stream.set_write_timeout(wait)?;
        // A response is sent at once, also where the one before it is not yet acknowledged.
        stream.set_nodelay(true)?;
        Ok(TcpLink {
            stream,
            read_faults: 0,
            write_faults: 0,
        })
    }
}

impl Source for TcpLink {
    ghost use Rattle.std.specs.Prelude.{ℕ};

    ghost left = { λ l. None };

    ghost faults = { λ l. l.read_faults };

    ghost Beside = { ℕ };

    ghost beside = { λ l. l.write_faults };

    fn read(&mut self, buf: &mut [u8]) -> Result<usize, Failed> {
        match self.stream.read(buf) {
            Ok(count) => Ok(count),
            Err(_) => {
                self.read_faults = self.read_faults.saturating_add(1);
                Err(Failed)
            }
        }
    }
}

impl Sink for TcpLink {
    ghost use Rattle.std.specs.Prelude.{ℕ};

    ghost held = { λ l. None };

    ghost faults = { λ l. l.write_faults };

    ghost Beside = { ℕ };

    ghost beside = { λ l. l.read_faults };

    fn write(&mut self, buf: &[u8]) -> Result<usize, Failed> {
        if buf.is_empty() {
            return Ok(0);
        }
        match self.stream.write(buf) {
            Ok(count) if count > 0 => Ok(count),
            _ => {
                self.write_faults = self.write_faults.saturating_add(1);
                Err(Failed)
            }
        }
    }
}

impl TwoWay for TcpLink {
    ghost use Rattle.std.proofs.Common.{refl};

    ghost held_told = { λ a b e. refl };

    ghost write_faults_told = { λ a b e. e };

    ghost left_told = { λ a b e. refl };

    ghost read_faults_told = { λ a b e. e };
}
