ghost use Rattle.std.specs.Prelude.{◌≡◌, ◌≢◌, ℕ, ◌≤◌, List, [], Some, false, option_copied};
ghost use Rattle.no_ports.specs.Meanings.{Rose, Reads, Writes};
ghost use Rattle.no_ports.specs.Tally.{count_of, after_answer};
ghost use Rattle.no_ports.specs.Memory.{no_calls, is_due, after_call, Answers, entries, file_of, contents_of};

use crate::files::{FileAnswer, Files};
use crate::tally::Tally;
use crate::turns::Turns;
use std::marker::Model;

/// Files in memory, of which some calls fail. Of several entries of one name the first counts.
#[derive(Debug, Drop)]
pub struct MemFiles {
    files: Vec<(String, Vec<u8>)>,
    turns: Turns,
    faults: Tally,
}

impl Model for MemFiles {
    ghost use Rattle.no_ports.specs.Memory.{entries};
    ghost use Rattle.no_ports.specs.Tally.{Shelf};

    ghost Value = { Shelf };

    ghost view = { λ s. record { files = entries s.files.items; calls = s.turns; faults = s.faults } };
}

impl MemFiles {
    /// The files' names and bytes, and the numbers of the calls that are to fail, counted from 1.
    pub fn new(files: Vec<(String, Vec<u8>)>, failing: Vec<u32>) -> MemFiles
        ensures { result ≡ record { files = entries files.items; calls = no_calls failing.items; faults = [] } }
    {
        let faults = Tally::new(*files.allocator());
        MemFiles {
            files,
            turns: Turns::new(failing),
            faults,
        }
    }

    /// What the file of a name holds, where there is one.
    pub fn file(&self, name: &str) -> Option<&[u8]>
        ensures { option_copied result ≡ file_of self.now.files name.now }
    {
        find(&self.files, name)
    }
}

impl Files for MemFiles {
    ghost contents = { λ s name. contents_of s.files name };

    ghost faults = { λ s name. count_of s.faults name };

    fn read(&mut self, name: &str, limit: u32, into: &mut Vec<u8>) -> FileAnswer
        ensures read { Reads result limit into.new.items (contents_of self.old.files name.now) }
        ensures same { (q : List ℕ) →
            contents_of self.new.files q ≡ contents_of self.old.files q }
        ensures later { count_of self.old.faults name.now ≤ count_of self.new.faults name.now }
        ensures failed { result ≡ FileAnswer.Failed → Rose (count_of self.old.faults name.now) (count_of self.new.faults name.now) }
        ensures alone { (q : List ℕ) → q ≢ name.now → count_of self.new.faults q ≡ count_of self.old.faults q }
        ensures answers { Answers result (is_due self.old.calls) }
        ensures kept { self.new.files ≡ self.old.files }
        ensures counted { self.new.calls ≡ after_call self.old.calls }
        ensures tallied { self.new.faults ≡ after_answer result name.now self.old.faults }
    {
        if self.turns.next_fails() {
            into.clear();
            return self.faults.fail(name);
        }
        read_front(&self.files, name, limit, into)
    }

    fn write(&mut self, name: &str, bytes: &[u8]) -> FileAnswer
        ensures written { Writes result bytes.now (contents_of self.old.files name.now)
            (contents_of self.new.files name.now) }
        ensures others { (q : List ℕ) → q ≢ name.now →
            contents_of self.new.files q ≡ contents_of self.old.files q }
        ensures later { count_of self.old.faults name.now ≤ count_of self.new.faults name.now }
        ensures failed { result ≡ FileAnswer.Failed → Rose (count_of self.old.faults name.now) (count_of self.new.faults name.now) }
        ensures alone { (q : List ℕ) → q ≢ name.now → count_of self.new.faults q ≡ count_of self.old.faults q }
        ensures answers { Answers result (is_due self.old.calls) }
        ensures stored { result ≡ FileAnswer.Done → file_of self.new.files name.now ≡ Some bytes.now }
        ensures kept { (q : List ℕ) → q ≢ name.now →
            file_of self.new.files q ≡ file_of self.old.files q }
        ensures counted { self.new.calls ≡ after_call self.old.calls }
        ensures tallied { self.new.faults ≡ after_answer result name.now self.old.faults }
    {
        if self.turns.next_fails() {
            return self.faults.fail(name);
        }
        put(&mut self.files, name, bytes)
    }
}

/// The bytes of the first entry of a name.
pub(crate) fn find<'a>(files: &'a [(String, Vec<u8>)], name: &str) -> Option<&'a [u8]>
    ensures { option_copied result ≡ file_of (entries files.now) name.now }
{
    for (other, bytes) in files {
        if other.as_str() == name {
            return Some(bytes.as_slice());
        }
    }
    None
}

/// Reads a file's first `limit` bytes; a name that is not there reads as an empty file.
pub(crate) fn read_front(
    files: &[(String, Vec<u8>)],
    name: &str,
    limit: u32,
    into: &mut Vec<u8>,
) -> FileAnswer
    ensures read { Reads result limit into.new.items (contents_of (entries files.now) name.now) }
    ensures never_fails { Answers result false }
{
    into.clear();
    let Some(bytes) = find(files, name) else {
        return FileAnswer::Done;
    };
    let n = bytes.len().min(limit as usize);
    let (front, _) = bytes.split_at(n);
    match into.extend_from_slice(front) {
        Ok(()) => FileAnswer::Done,
        Err(_) => FileAnswer::NoMemory,
    }
}

/// Puts an entry before all others, so that it is the one that counts.
pub(crate) fn put(files: &mut Vec<(String, Vec<u8>)>, name: &str, bytes: &[u8]) -> FileAnswer
    ensures never_fails { Answers result false }
    ensures stored { result ≡ FileAnswer.Done → file_of (entries files.new.items) name.now ≡ Some bytes.now }
    ensures kept { (q : List ℕ) → q ≢ name.now →
        file_of (entries files.new.items) q ≡ file_of (entries files.old.items) q }
{
    let alloc = *files.allocator();
    let Ok(own) = String::from_str(alloc, name) else {
        return FileAnswer::NoMemory;
    };
    let Ok(kept) = Vec::from_slice(alloc, bytes) else {
        return FileAnswer::NoMemory;
    };
    match files.insert(0, (own, kept)) {
        Ok(()) => FileAnswer::Done,
        Err(_) => FileAnswer::NoMemory,
    }
}
