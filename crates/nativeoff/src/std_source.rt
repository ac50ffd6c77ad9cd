use no_ports::{Source, Took};
use std::io::Read;

/// A reader as a source. What is left is not told.
#[derive(Drop)]
pub struct StdSource<R> {
    inner: R,
    faults: u64,
}

impl<R> StdSource<R> {
    pub fn new(inner: R) -> StdSource<R> {
        StdSource { inner, faults: 0 }
    }
}

impl<R: Read> Source for StdSource<R> {
    ghost use Rattle.std.specs.Prelude.{None};

    ghost left = { λ _. None };

    ghost faults = { λ s. s.faults };

    fn take(&mut self, buf: &mut [u8]) -> Took {
        match self.inner.read(buf) {
            Ok(0) => Took::End,
            Ok(n) => Took::Took(n as u32),
            Err(_) => {
                self.faults = self.faults.saturating_add(1);
                Took::Failed
            }
        }
    }
}
