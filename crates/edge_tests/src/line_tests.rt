//! Sessions of lines over memory, with writes and a reply that fail.

ghost use Rattle.std.specs.Prelude.{◌++◌};
ghost use Rattle.grid_exact.specs.Texts.{Extends};

use grid_exact::{Bytes, NoMemory};
use oe_http::{Answering, Ended, FakeSink, FakeSource, records};
use std::test::Fail;

/// How many bytes come in one read.
const MOST: usize = 10;

/// Answers a line of text by the line itself, and counts the lines. Of its reply to `stop` it appends a half, and then
/// has no memory. It is asked no long line.
#[derive(Drop)]
struct Echo {
    lines: u64,
}

impl Answering for Echo {
    ghost step = { λ s line text t. Unit {0} };

    #[tactic(auto, using(grid_exact::proofs::Extending::extending))]
    fn answer(&mut self, line: &[u8], text: &mut String) -> Result<(), NoMemory> {
        self.lines = self.lines.saturating_add(1);
        if line == b"stop".as_slice() {
            text.push_str("st")?;
            return Err(NoMemory);
        }
        let Ok(words) = str::from_utf8(line) else {
            return Err(NoMemory);
        };
        text.push_str(words)?;
        text.push_str("\n")?;
        Ok(())
    }

    fn answer_long(&mut self, _text: &mut String) -> Result<(), NoMemory> {
        Err(NoMemory)
    }
}

#[test]
fn what_was_asked_when_a_write_or_memory_failed(rt: HostRuntime) -> Result<(), Fail> {
    let alloc = rt.alloc();
    // what comes in, the write that fails (none: 0), how the session ends, what then comes out, and how many lines were asked
    let table = [
        // what waits is written before the next read
        ("one\ntwo\nthree\n", 2, Ended::WriteFault, "one\ntwo\n", 3),
        // after a refused write no more is read
        ("one\ntwo\nthree\n", 1, Ended::WriteFault, "", 2),
        // of a reply that fails midway nothing is written, and no line after it is asked
        ("one\nstop\nthree\n", 0, Ended::NoMemory, "one\n", 2),
    ];
    for (text, write, ended, replies, asked) in table {
        let bytes = Bytes::from_slice(alloc, text.as_bytes())?;
        let mut input = FakeSource::new(bytes, MOST, Vec::new(alloc));
        let mut output = FakeSink::new(alloc, 1000, vec![in alloc; write]?)?;
        let mut desk = Echo { lines: 0 };
        assert_eq!(rt; records(alloc, &mut desk, &mut input, &mut output), ended);
        assert_eq!(rt; output.bytes(), replies.as_bytes());
        assert_eq!(rt; desk.lines, asked);
    }
    Ok(())
}
