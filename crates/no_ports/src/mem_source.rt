ghost use Rattle.std.specs.Prelude.{◌≡◌, ◌^◌, ◌<◌, ◌≤◌, Some, length, drop};
ghost use Rattle.no_ports.specs.Meanings.{Rose, Takes};
ghost use Rattle.no_ports.specs.Memory.{no_calls, taken, left_after, take_answer, supply_after};

use crate::source::{Source, Took};
use crate::turns::Turns;
use std::marker::Model;

/// A source of given bytes, of which some calls fail.
#[derive(Debug, Drop)]
pub struct MemSource {
    bytes: Vec<u8>,
    at: usize,
    turns: Turns,
}

impl Model for MemSource {
    ghost use Rattle.std.specs.Prelude.{◌≤◌, vec_len, drop};
    ghost use Rattle.no_ports.specs.Memory.{Supply};

    ghost Value = { Supply };

    ghost view = { λ s. record { left = drop s.at s.bytes.items; calls = s.turns } };

    ghost invariant = { λ s. s.at ≤ vec_len s.bytes };
}

impl MemSource {
    /// The bytes to give, and the numbers of the calls that are to fail, counted from 1.
    pub fn new(bytes: Vec<u8>, failing: Vec<u32>) -> MemSource
        ensures { result ≡ record { left = bytes.items; calls = no_calls failing.items } }
    {
        MemSource {
            bytes,
            at: 0,
            turns: Turns::new(failing),
        }
    }
}

impl Source for MemSource {
    ghost left = { λ s. Some s.left };

    ghost faults = { λ s. s.calls.failed };

    fn take(&mut self, buf: &mut [u8]) -> Took
        requires some { 0 < length buf.old }
        requires short { length buf.old < 2 ^ 32 }
        ensures took { Takes result buf.new (Some self.old.left) (Some self.new.left) }
        ensures later { self.old.calls.failed ≤ self.new.calls.failed }
        ensures failed { result ≡ Took.Failed → Rose self.old.calls.failed self.new.calls.failed }
        ensures answer { result ≡ take_answer self.old (length buf.old) }
        ensures after { self.new ≡ supply_after self.old (length buf.old) }
    {
        if self.turns.next_fails() {
            return Took::Failed;
        }
        take_front(&self.bytes, &mut self.at, buf)
    }
}

/// Moves all that fits of the bytes from `at` on to the beginning of the buffer.
pub(crate) fn take_front(bytes: &[u8], at: &mut usize, buf: &mut [u8]) -> Took
    requires within { at.old ≤ length bytes.now }
    requires some { 0 < length buf.old }
    requires short { length buf.old < 2 ^ 32 }
    ensures within { at.new ≤ length bytes.now }
    ensures took { Takes result buf.new (Some (drop at.old bytes.now))
        (Some (drop at.new bytes.now)) }
    ensures answer { result ≡ taken (length buf.old) (drop at.old bytes.now) }
    ensures left { drop at.new bytes.now ≡ left_after (length buf.old) (drop at.old bytes.now) }
{
    let (_, left) = bytes.split_at(*at);
    let n = buf.len().min(left.len());
    if n == 0 {
        return Took::End;
    }
    buf[..n].copy_from_slice(&left[..n]);
    *at += n;
    Took::Took(n as u32)
}
