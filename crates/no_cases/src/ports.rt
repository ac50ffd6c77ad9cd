use no_ports::{
    ClosedSpawner, ClosedWire, FileAnswer, Files, Gave, GaveAll, MemFiles, MemSink, MemSource,
    Opened, Sink, Source, Spawner, Started, SureFiles, SureSink, SureSource, Tally, Took, Wire,
    WireGave, WireTook, give_all,
};
use std::alloc::{AllocError, Global};
use std::test::*;

fn bytes(alloc: Global, text: &str) -> Result<Vec<u8>, AllocError> {
    Vec::from_slice(alloc, text.as_bytes())
}

/// Two files of one name, of which the first counts, and one of another.
fn three_files(alloc: Global) -> Result<Vec<(String, Vec<u8>)>, AllocError> {
    let mut files = Vec::new(alloc);
    for (name, text) in [("a", "first"), ("b", "other"), ("a", "second")] {
        files.push((String::from_str(alloc, name)?, bytes(alloc, text)?))?;
    }
    Ok(files)
}

#[test]
fn a_source_gives_its_bytes_in_order(rt: HostRuntime) -> Result<(), AllocError> {
    let alloc = rt.alloc();
    let mut source = MemSource::new(bytes(alloc, "abcde")?, vec![in alloc; 2u32, 5]?);
    let mut buf = [0u8; 3];
    for (wanted, front) in [
        (Took::Took(3), "abc"),
        (Took::Failed, ""),
        (Took::Took(2), "de"),
        (Took::End, ""),
        (Took::Failed, ""),
        (Took::End, ""),
    ] {
        assert_eq!(rt; source.take(&mut buf), wanted);
        assert!(rt; buf.starts_with(front.as_bytes()));
    }
    Ok(())
}

#[test]
fn a_sure_source_never_fails(rt: HostRuntime) -> Result<(), AllocError> {
    let mut source = SureSource::new(bytes(rt.alloc(), "abcd")?);
    let mut buf = [0u8; 3];
    for (wanted, front) in [
        (Took::Took(3), "abc"),
        (Took::Took(1), "d"),
        (Took::End, ""),
    ] {
        assert_eq!(rt; source.take(&mut buf), wanted);
        assert!(rt; buf.starts_with(front.as_bytes()));
    }
    Ok(())
}

#[test]
fn a_sink_keeps_what_it_took(rt: HostRuntime) -> Result<(), AllocError> {
    let alloc = rt.alloc();
    let mut sink = MemSink::new(alloc, vec![in alloc; 1u32, 3]?);
    for (piece, wanted, held) in [
        ("abc", Gave::Failed, ""),
        ("abc", Gave::Gave(3), "abc"),
        ("d", Gave::Failed, "abc"),
        ("d", Gave::Gave(1), "abcd"),
    ] {
        assert_eq!(rt; sink.give(piece.as_bytes()), wanted);
        assert_eq!(rt; sink.held(), held.as_bytes());
    }
    let mut sure = SureSink::new(alloc);
    assert_eq!(rt; sure.give(b"ab".as_slice()), Gave::Gave(2));
    assert_eq!(rt; sure.held(), b"ab".as_slice());
    Ok(())
}

#[test]
fn a_long_text_is_given_in_pieces(rt: HostRuntime) -> Result<(), AllocError> {
    let alloc = rt.alloc();
    let text = vec![in alloc; 7u8; 9000]?;
    let mut sure = SureSink::new(alloc);
    assert_eq!(rt; give_all(&mut sure, &text), GaveAll::Done);
    assert_eq!(rt; sure.held(), text.as_slice());
    for (failing, wanted, held) in [
        (1u32, GaveAll::Failed, 0),
        (2, GaveAll::Failed, 4096),
        (3, GaveAll::Failed, 8192),
        (4, GaveAll::Done, 9000),
    ] {
        let mut sink = MemSink::new(alloc, vec![in alloc; failing]?);
        assert_eq!(rt; give_all(&mut sink, &text), wanted);
        assert_eq!(rt; sink.held().len(), held);
    }
    Ok(())
}

/// A sink that takes no more than three bytes at once.
#[derive(Drop)]
struct Slow {
    bytes: Vec<u8>,
}

impl Sink for Slow {
    ghost use Rattle.std.specs.Prelude.{None};

    ghost held = { λ _. None };

    ghost faults = { λ _. 0 };

    fn give(&mut self, piece: &[u8]) -> Gave {
        let n = piece.len().min(3);
        match self.bytes.extend_from_slice(&piece[..n]) {
            Ok(()) => Gave::Gave(n as u32),
            Err(_) => Gave::NoMemory,
        }
    }
}

#[test]
fn what_a_sink_did_not_take_is_given_again(rt: HostRuntime) {
    let mut slow = Slow {
        bytes: Vec::new(rt.alloc()),
    };
    assert_eq!(rt; give_all(&mut slow, b"abcdefgh".as_slice()), GaveAll::Done);
    assert_eq!(rt; slow.bytes.as_slice(), b"abcdefgh".as_slice());
    assert_eq!(rt; give_all(&mut slow, b"".as_slice()), GaveAll::Done);
    assert_eq!(rt; slow.bytes.len(), 8);
}

#[test]
fn files_are_read(rt: HostRuntime) -> Result<(), AllocError> {
    let alloc = rt.alloc();
    let mut files = MemFiles::new(three_files(alloc)?, vec![in alloc; 2u32]?);
    let mut into = bytes(alloc, "old")?;
    for (name, limit, wanted, text) in [
        ("a", 9, FileAnswer::Done, "first"),
        ("a", 9, FileAnswer::Failed, ""),
        ("a", 2, FileAnswer::Done, "fi"),
        ("c", 9, FileAnswer::Done, ""),
    ] {
        assert_eq!(rt; files.read(name, limit, &mut into), wanted);
        assert_eq!(rt; into.as_slice(), text.as_bytes());
    }
    Ok(())
}

#[test]
fn files_are_replaced(rt: HostRuntime) -> Result<(), AllocError> {
    let alloc = rt.alloc();
    let mut files = MemFiles::new(three_files(alloc)?, vec![in alloc; 2u32]?);
    assert_eq!(rt; files.write("c", b"new".as_slice()), FileAnswer::Done);
    assert_eq!(rt; files.write("b", b"new".as_slice()), FileAnswer::Failed);
    assert_eq!(rt; files.write("a", b"new".as_slice()), FileAnswer::Done);
    for (name, text) in [("a", "new"), ("c", "new"), ("b", "other")] {
        assert_eq!(rt; files.file(name), Some(text.as_bytes()));
    }
    assert_eq!(rt; files.file("d"), None);
    Ok(())
}

#[test]
fn sure_files_never_fail(rt: HostRuntime) -> Result<(), AllocError> {
    let alloc = rt.alloc();
    let mut files = SureFiles::new(three_files(alloc)?);
    let mut into = bytes(alloc, "old")?;
    assert_eq!(rt; files.write("a", b"new".as_slice()), FileAnswer::Done);
    assert_eq!(rt; files.read("a", 2, &mut into), FileAnswer::Done);
    assert_eq!(rt; into.as_slice(), b"ne".as_slice());
    assert_eq!(rt; files.file("b"), Some(b"other".as_slice()));
    Ok(())
}

#[test]
fn failures_are_counted_by_name(rt: HostRuntime) {
    let mut tally = Tally::new(rt.alloc());
    for (name, count) in [("a", 1), ("b", 1), ("a", 2), ("a", 3)] {
        assert_eq!(rt; tally.fail(name), FileAnswer::Failed);
        assert_eq!(rt; tally.of(name), count);
    }
    assert_eq!(rt; tally.of("b"), 1);
    assert_eq!(rt; tally.of("c"), 0);
}

#[test]
fn closed_forms_fail(rt: HostRuntime) {
    let mut wire = ClosedWire::new();
    let mut buf = [0u8; 1];
    assert_eq!(rt; wire.listen("127.0.0.1:4000"), Opened::Failed);
    assert_eq!(rt; wire.accept(), Opened::Failed);
    assert_eq!(rt; wire.connect("127.0.0.1:4000"), Opened::Failed);
    assert_eq!(rt; wire.send(b"a".as_slice()), WireGave::Failed);
    assert_eq!(rt; wire.take(&mut buf), WireTook::Failed);
    wire.close();
    let mut spawner = ClosedSpawner::new();
    assert_eq!(rt;
        spawner.start("nativeoff", "127.0.0.1:4000"),
        Started::Failed
    );
}
