//! A link over memory.

ghost use Rattle.std.specs.Prelude.{◌≡◌, Some};

use crate::{Failed, FakeSink, FakeSource, Sink, Source, TwoWay};

/// Both ends of a link, over memory.
#[derive(Drop)]
pub struct FakeLink {
    source: FakeSource,
    sink: FakeSink,
}

impl FakeLink {
    /// A link that reads from this source and writes to this sink.
    pub fn new(source: FakeSource, sink: FakeSink) -> Self
        ensures source { result.source ≡ source }
        ensures sink { result.sink ≡ sink }
    {
        FakeLink { source, sink }
    }

    /// Its sink.
    pub fn sink(&self) -> &FakeSink
        ensures { result.now ≡ self.now.sink }
    {
        &self.sink
    }
}

impl Source for FakeLink {
    ghost use Rattle.oe_http.specs.Fakes.{bytes_left};
    ghost use Rattle.oe_http.specs.declared.fakes.FakeSink.{FakeSink};

    ghost left = { λ l. Some (bytes_left l.source) };

    ghost faults = { λ l. l.source.faults };

    ghost Beside = { FakeSink };

    ghost beside = { λ l. l.sink };

    fn read(&mut self, buf: &mut [u8]) -> Result<usize, Failed> {
        self.source.read(buf)
    }
}

impl Sink for FakeLink {
    ghost use Rattle.oe_http.specs.Fakes.{bytes_held};
    ghost use Rattle.oe_http.specs.declared.fakes.FakeSource.{FakeSource};

    ghost held = { λ l. Some (bytes_held l.sink) };

    ghost faults = { λ l. l.sink.faults };

    ghost Beside = { FakeSource };

    ghost beside = { λ l. l.source };

    fn write(&mut self, buf: &[u8]) -> Result<usize, Failed> {
        self.sink.write(buf)
    }
}

impl TwoWay for FakeLink {
    ghost use Rattle.std.proofs.Common.{ap};
    ghost use Rattle.oe_http.specs.Fakes.{bytes_left, bytes_held};
    ghost use Rattle.oe_http.specs.declared.fakes.FakeSource.{FakeSource};
    ghost use Rattle.oe_http.specs.declared.fakes.FakeSink.{FakeSink};

    ghost held_told = { λ a b e. ap (λ (s : FakeSink). Some (bytes_held s)) e };

    ghost write_faults_told = { λ a b e. ap (λ (s : FakeSink). s.faults) e };

    ghost left_told = { λ a b e. ap (λ (s : FakeSource). Some (bytes_left s)) e };

    ghost read_faults_told = { λ a b e. ap (λ (s : FakeSource). s.faults) e };
}
