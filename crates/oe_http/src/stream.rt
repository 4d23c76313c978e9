//! The traits of sources and sinks: the bytes left or held, where known, the counts of faults, and both as the ends of one link.

ghost use Rattle.std.specs.Prelude.{◌≡◌, ◌≤◌, ◌<◌, ℕ, List, Option, IfOk, length};
ghost use Rattle.std.specs.Io.{ReadsAtMost, WritesAtMost};
ghost use Rattle.std.specs.Io.KnownBytes.{ReadConsumes, WriteAppends};
ghost use Rattle.oe_http.specs.Causes.{HasCause};

/// A call of a stream that failed. The stream has counted it.
#[derive(Clone, Copy, Debug, PartialEq, Eq)]
pub struct Failed;

/// A stream of input bytes.
pub trait Source {
    /// The bytes left to read, where known.
    ghost left: { Self → Option (List ℕ) };

    /// The number of its faults.
    ghost faults: { Self → ℕ };

    /// The type of the state beside the source: for a link, of its other end.
    ghost Beside: { Type 0 };

    /// The state beside the source. A read leaves it unchanged.
    ghost beside: { Self → Beside };

    /// Reads the next bytes. 0 bytes into a buffer with room mean the end.
    ///
    /// # Errors
    ///
    /// `Failed` where the read fails. The fault is then counted, and nothing was read.
    fn read(&mut self, buf: &mut [u8]) -> Result<usize, Failed>
        ensures bound { ReadsAtMost result buf.new }
        ensures bytes { ReadConsumes (left self.old) (left self.new) result buf.new }
        ensures same { beside self.new ≡ beside self.old }
        ensures cause { HasCause (faults self.old) (faults self.new) result };
}

/// A stream of output bytes.
pub trait Sink {
    /// The bytes written so far, where known.
    ghost held: { Self → Option (List ℕ) };

    /// The number of its faults.
    ghost faults: { Self → ℕ };

    /// The type of the state beside the sink: for a link, of its other end.
    ghost Beside: { Type 0 };

    /// The state beside the sink. A write leaves it unchanged.
    ghost beside: { Self → Beside };

    /// Writes the first bytes of a piece, at least one unless the piece is empty.
    ///
    /// # Errors
    ///
    /// `Failed` where the write fails. The fault is then counted, and nothing was written.
    fn write(&mut self, buf: &[u8]) -> Result<usize, Failed>
        ensures bound { WritesAtMost result buf.now }
        ensures some { 0 < length buf.now → IfOk result (λ count. 1 ≤ count) }
        ensures bytes { WriteAppends (held self.old) (held self.new) result buf.now }
        ensures same { beside self.new ≡ beside self.old }
        ensures cause { HasCause (faults self.old) (faults self.new) result };
}

/// Both ends of one link. A call of one end leaves the other unchanged.
pub trait TwoWay: Source + Sink {
    /// The state beside the source determines the bytes written to the sink.
    ghost held_told: { (a b : Self) → Self.Source.beside a ≡ Self.Source.beside b → Self.Sink.held a ≡ Self.Sink.held b };

    /// The state beside the source determines the sink's number of faults.
    ghost write_faults_told: { (a b : Self) → Self.Source.beside a ≡ Self.Source.beside b → Self.Sink.faults a ≡ Self.Sink.faults b };

    /// The state beside the sink determines the bytes left in the source.
    ghost left_told: { (a b : Self) → Self.Sink.beside a ≡ Self.Sink.beside b → Self.Source.left a ≡ Self.Source.left b };

    /// The state beside the sink determines the source's number of faults.
    ghost read_faults_told: { (a b : Self) → Self.Sink.beside a ≡ Self.Sink.beside b → Self.Source.faults a ≡ Self.Source.faults b };
}
