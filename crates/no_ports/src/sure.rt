ghost use Rattle.std.specs.Prelude.{◌≡◌, ◌≢◌, ℕ, ◌^◌, ◌<◌, ◌≤◌, List, [], Some, false, length, option_copied};
ghost use Rattle.no_ports.specs.Meanings.{Rose, Takes, Gives, Reads, Writes};
ghost use Rattle.no_ports.specs.Memory.{taken, left_after, Stores, Answers, entries, file_of, contents_of};

use crate::files::{FileAnswer, Files};
use crate::mem_files::{find, put, read_front};
use crate::mem_sink::store;
use crate::mem_source::take_front;
use crate::sink::{Gave, Sink};
use crate::source::{Source, Took};
use std::alloc::Global;
use std::marker::Model;

/// A source of given bytes that never fails.
#[derive(Debug, Drop)]
pub struct SureSource {
    bytes: Vec<u8>,
    at: usize,
}

impl Model for SureSource {
    ghost use Rattle.std.specs.Prelude.{ℕ, ◌≤◌, List, vec_len, drop};

    ghost Value = { List ℕ };

    ghost view = { λ s. drop s.at s.bytes.items };

    ghost invariant = { λ s. s.at ≤ vec_len s.bytes };
}

impl SureSource {
    /// The bytes to give.
    pub fn new(bytes: Vec<u8>) -> SureSource
        ensures { result ≡ bytes.items }
    {
        SureSource { bytes, at: 0 }
    }
}

impl Source for SureSource {
    ghost left = { λ s. Some s };

    ghost faults = { λ _. 0 };

    fn take(&mut self, buf: &mut [u8]) -> Took
        requires some { 0 < length buf.old }
        requires short { length buf.old < 2 ^ 32 }
        ensures took { Takes result buf.new (Some self.old) (Some self.new) }
        ensures answer { result ≡ taken (length buf.old) self.old }
        ensures after { self.new ≡ left_after (length buf.old) self.old }
        ensures never_fails { result ≢ Took.Failed }
    {
        take_front(&self.bytes, &mut self.at, buf)
    }
}

/// A sink that keeps what it is given and never fails.
#[derive(Debug, Drop)]
pub struct SureSink {
    bytes: Vec<u8>,
}

impl Model for SureSink {
    ghost use Rattle.std.specs.Prelude.{ℕ, List};

    ghost Value = { List ℕ };

    ghost view = { λ s. s.bytes.items };
}

impl SureSink {
    /// A sink that holds nothing.
    pub fn new(alloc: Global) -> SureSink
        ensures { result ≡ [] }
    {
        SureSink {
            bytes: Vec::new(alloc),
        }
    }

    /// All bytes given so far.
    pub fn held(&self) -> &[u8]
        ensures { result.now ≡ self.now }
    {
        &self.bytes
    }
}

impl Sink for SureSink {
    ghost held = { λ s. Some s };

    ghost faults = { λ _. 0 };

    fn give(&mut self, piece: &[u8]) -> Gave
        requires some { 0 < length piece.now }
        requires short { length piece.now < 2 ^ 32 }
        ensures gave { Gives result piece.now (Some self.old) (Some self.new) }
        ensures stores { Stores result false piece.now self.old self.new }
        ensures never_fails { result ≢ Gave.Failed }
    {
        store(&mut self.bytes, piece)
    }
}

/// Files in memory that never fail. Of several entries of one name the first counts.
#[derive(Debug, Drop)]
pub struct SureFiles {
    files: Vec<(String, Vec<u8>)>,
}

impl Model for SureFiles {
    ghost use Rattle.std.specs.Prelude.{List};
    ghost use Rattle.no_ports.specs.Memory.{Entry, entries};

    ghost Value = { List Entry };

    ghost view = { λ s. entries s.files.items };
}

impl SureFiles {
    /// The files' names and bytes.
    pub fn new(files: Vec<(String, Vec<u8>)>) -> SureFiles
        ensures { result ≡ entries files.items }
    {
        SureFiles { files }
    }

    /// What the file of a name holds, where there is one.
    pub fn file(&self, name: &str) -> Option<&[u8]>
        ensures { option_copied result ≡ file_of self.now name.now }
    {
        find(&self.files, name)
    }
}

impl Files for SureFiles {
    ghost contents = { λ s name. contents_of s name };

    ghost faults = { λ _ _. 0 };

    fn read(&mut self, name: &str, limit: u32, into: &mut Vec<u8>) -> FileAnswer
        ensures read { Reads result limit into.new.items (contents_of self.old name.now) }
        ensures same { (q : List ℕ) →
            contents_of self.new q ≡ contents_of self.old q }
        ensures kept { self.new ≡ self.old }
        ensures never_fails { result ≢ FileAnswer.Failed }
    {
        read_front(&self.files, name, limit, into)
    }

    fn write(&mut self, name: &str, bytes: &[u8]) -> FileAnswer
        ensures written { Writes result bytes.now (contents_of self.old name.now)
            (contents_of self.new name.now) }
        ensures others { (q : List ℕ) → q ≢ name.now →
            contents_of self.new q ≡ contents_of self.old q }
        ensures stored { result ≡ FileAnswer.Done → file_of self.new name.now ≡ Some bytes.now }
        ensures kept { (q : List ℕ) → q ≢ name.now → file_of self.new q ≡ file_of self.old q }
        ensures never_fails { result ≢ FileAnswer.Failed }
    {
        put(&mut self.files, name, bytes)
    }
}
