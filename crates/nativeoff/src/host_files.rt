ghost use Rattle.std.specs.Prelude.{◌≤◌, vec_len, IfOk};

use no_ports::{FileAnswer, Files, Tally};
use std::fs::{self, File};
use std::io::{self, Read};

/// The system's files. What they hold is not told.
#[derive(Drop)]
pub struct HostFiles<'a> {
    rt: &'a HostRuntime,
    faults: Tally,
}

/// Adds a file's first bytes to a buffer that holds fewer than the limit, up to the limit.
fn read_up_to(file: &mut File, limit: usize, into: &mut Vec<u8>) -> io::Result<()>
    requires { vec_len into.old ≤ limit }
    ensures { vec_len into.new ≤ limit }
{
    let mut buf = [0u8; 4096];
    while into.len() < limit {
        let most = (limit - into.len()).min(4096);
        let count = file.read(&mut buf[..most])?;
        if count == 0 {
            return Ok(());
        }
        into.extend_from_slice(&buf[..count])?;
    }
    Ok(())
}

impl<'a> HostFiles<'a> {
    pub fn new(rt: &'a HostRuntime) -> HostFiles<'a> {
        let faults = Tally::new(rt.alloc());
        HostFiles { rt, faults }
    }
}

/// Adds a file's first bytes to an empty buffer, up to the limit.
fn read_file(rt: &HostRuntime, name: &str, limit: usize, into: &mut Vec<u8>) -> io::Result<()>
    requires { vec_len into.old ≤ limit }
    ensures { vec_len into.new ≤ limit }
{
    let mut file = File::open(rt, name)?;
    read_up_to(&mut file, limit, into)
}

impl Files for HostFiles<'_> {
    ghost use Rattle.std.specs.Prelude.{None};
    ghost use Rattle.no_ports.specs.Tally.{count_of};

    ghost contents = { λ _ _. None };

    ghost faults = { λ f name. count_of f.faults name };

    fn read(&mut self, name: &str, limit: u32, into: &mut Vec<u8>) -> FileAnswer {
        into.clear();
        if read_file(self.rt, name, limit as usize, into).is_ok() {
            return FileAnswer::Done;
        }
        into.clear();
        self.faults.fail(name)
    }

    fn write(&mut self, name: &str, bytes: &[u8]) -> FileAnswer {
        if fs::write(self.rt, name, bytes).is_ok() {
            return FileAnswer::Done;
        }
        self.faults.fail(name)
    }
}
