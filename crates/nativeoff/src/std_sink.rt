use no_ports::{Gave, Sink};
use std::io::Write;

/// A writer as a sink. What it holds is not told.
#[derive(Drop)]
pub struct StdSink<W> {
    inner: W,
    faults: u64,
}

impl<W> StdSink<W> {
    pub fn new(inner: W) -> StdSink<W> {
        StdSink { inner, faults: 0 }
    }
}

impl<W: Write> Sink for StdSink<W> {
    ghost use Rattle.std.specs.Prelude.{None};

    ghost held = { λ _. None };

    ghost faults = { λ s. s.faults };

    fn give(&mut self, piece: &[u8]) -> Gave {
        match self.inner.write(piece) {
            Ok(n) if n > 0 => Gave::Gave(n as u32),
            _ => {
                self.faults = self.faults.saturating_add(1);
                Gave::Failed
            }
        }
    }
}
