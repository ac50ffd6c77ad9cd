ghost use Rattle.std.specs.Prelude.{◌≡◌, ◌≤◌, IfOk};
ghost use Rattle.no_profile.specs.Ranges.{AreInRange, IsInRange, MOST_PAGES, MOST_STEPS};

use no_ir::{Bytes, List};
use no_profile::{Line, Profile, ProfileError, ProfileFault, profile_text, read_profile};
use std::alloc::{AllocError, Global};
use std::test::*;

/// Texts with what reading them answers: the number of the fault and the member or the version, or 0 where it is a profile.
const ANSWERS: [(&[u8], u8, &[u8], u64); 37] = [
    (b"{\"functions\":[],\"steps\":0,\"version\":1}", 0, b"", 0),
    (
        b"\t{ \"version\" : 1 ,\r\n\"steps\" : 4294967296, \"functions\" : [ {\"steps\":4294967296,\"pages\":1048576,\"name\":\"\\\"a b\\\"\",\"calls\":4294967296} ] }\n",
        0,
        b"",
        0,
    ),
    (b"", 1, b"", 0),
    (b"[]", 1, b"", 0),
    (b"1", 1, b"", 0),
    (b"{\"functions\":[],\"steps\":0,\"version\":1} 1", 1, b"", 0),
    (b"{\"functions\":[],\"steps\":00,\"version\":1}", 1, b"", 0),
    (
        b"{\"\xff\":0,\"functions\":[],\"steps\":0,\"version\":1}",
        1,
        b"",
        0,
    ),
    (b"{}", 3, b"", 0),
    (b"{\"version\":2}", 3, b"", 2),
    (b"{\"version\":\"1\"}", 3, b"", 0),
    (b"{\"version\":1.0}", 3, b"", 0),
    (b"{\"version\":1e0}", 3, b"", 0),
    (b"{\"version\":-1}", 3, b"", 0),
    (
        b"{\"version\":18446744073709551615}",
        3,
        b"",
        18446744073709551615,
    ),
    (b"{\"version\":18446744073709551616}", 3, b"", 0),
    (b"{\"version\":1,\"version\":2}", 3, b"", 2),
    (b"{\"version\":2,\"version\":1}", 2, b"functions", 0),
    (b"{\"functions\":[],\"version\":1}", 2, b"steps", 0),
    (
        b"{\"functions\":[],\"steps\":1e3,\"version\":1}",
        2,
        b"steps",
        0,
    ),
    (
        b"{\"functions\":[],\"steps\":1.0,\"version\":1}",
        2,
        b"steps",
        0,
    ),
    (
        b"{\"functions\":[],\"steps\":-1,\"version\":1}",
        2,
        b"steps",
        0,
    ),
    (
        b"{\"functions\":[],\"steps\":4294967297,\"version\":1}",
        2,
        b"steps",
        0,
    ),
    (
        b"{\"functions\":0,\"a\":0,\"steps\":0,\"version\":1}",
        2,
        b"a",
        0,
    ),
    (
        b"{\"functions\":[],\"steps\":-1,\"version\":1,\"Z\":0}",
        2,
        b"Z",
        0,
    ),
    (
        b"{\"functions\":[],\"steps\":-1,\"g\":0,\"version\":1}",
        2,
        b"g",
        0,
    ),
    (
        b"{\"functions\":[],\"steps\":0,\"version\":1,\"versions\":1}",
        2,
        b"versions",
        0,
    ),
    (
        b"{\"functions\":{},\"steps\":[],\"version\":1,\"z\":0}",
        2,
        b"functions",
        0,
    ),
    (
        b"{\"functions\":[0],\"steps\":0,\"version\":1}",
        2,
        b"functions",
        0,
    ),
    (
        b"{\"functions\":[{\"calls\":0,\"name\":\"f\",\"steps\":0}],\"steps\":0,\"version\":1}",
        2,
        b"functions",
        0,
    ),
    (
        b"{\"functions\":[{\"calls\":0,\"name\":\"f\",\"pages\":0,\"steps\":0,\"z\":0}],\"steps\":0,\"version\":1}",
        2,
        b"functions",
        0,
    ),
    (
        b"{\"functions\":[{\"calls\":0,\"name\":\"f\",\"pages\":1048577,\"steps\":0}],\"steps\":0,\"version\":1}",
        2,
        b"functions",
        0,
    ),
    (
        b"{\"functions\":[{\"calls\":0,\"name\":\"@f\",\"pages\":0,\"steps\":0}],\"steps\":0,\"version\":1}",
        2,
        b"functions",
        0,
    ),
    (
        b"{\"functions\":[{\"calls\":0,\"name\":\"\",\"pages\":0,\"steps\":0}],\"steps\":0,\"version\":1}",
        2,
        b"functions",
        0,
    ),
    (
        b"{\"functions\":[{\"calls\":0,\"name\":\"\\\"f\\\"\",\"pages\":0,\"steps\":0}],\"steps\":0,\"version\":1}",
        2,
        b"functions",
        0,
    ),
    (
        b"{\"functions\":[{\"calls\":0,\"name\":\"\\\"\\\\0a\\\"\",\"pages\":0,\"steps\":0}],\"steps\":0,\"version\":1}",
        2,
        b"functions",
        0,
    ),
    (
        b"{\"functions\":[{\"calls\":0,\"name\":\"\\\"\\\\0A\\\"\",\"pages\":0,\"steps\":0}],\"steps\":0,\"version\":1}",
        0,
        b"",
        0,
    ),
];

/// What reading a text answers, as above; 9 for want of memory.
fn answer(alloc: Global, text: &[u8]) -> (u8, Bytes, u64) {
    let none = List::new(alloc);
    match read_profile(alloc, text) {
        Ok(_) => (0, none, 0),
        Err(ProfileError::NoMemory) => (9, none, 0),
        Err(ProfileError::Fault(fault)) => {
            let number = fault.number();
            match fault {
                ProfileFault::Member(name) => (number, name, 0),
                ProfileFault::Version(version) => (number, none, version),
                _ => (number, none, 0),
            }
        }
    }
}

#[test]
fn texts_and_their_faults(rt: HostRuntime) -> Result<(), Fail> {
    for (text, number, member, version) in ANSWERS {
        let said = answer(rt.alloc(), text);
        assert_eq!(rt; said.0, number);
        assert!(rt; said.1.as_slice() == member);
        assert_eq!(rt; said.2, version);
    }
    Ok(())
}

/// An object of version 1 whose member `a` is so many lists, one in the other.
fn nested(alloc: Global, depth: usize) -> Result<Vec<u8>, AllocError> {
    let mut text = Vec::from_slice(alloc, b"{\"version\":1,\"a\":")?;
    text.extend_from_slice(vec![in alloc; b'['; depth]?.as_slice())?;
    text.extend_from_slice(vec![in alloc; b']'; depth]?.as_slice())?;
    text.extend_from_slice(b"}")?;
    Ok(text)
}

#[test]
fn texts_nest_127_deep(rt: HostRuntime) -> Result<(), Fail> {
    let alloc = rt.alloc();
    let said = answer(alloc, nested(alloc, 126)?.as_slice());
    assert_eq!(rt; said.0, 2);
    assert!(rt; said.1.as_slice() == b"a".as_slice());
    let said = answer(alloc, nested(alloc, 127)?.as_slice());
    assert_eq!(rt; said.0, 1);
    Ok(())
}

/// An empty profile, and so many spaces in front of it.
fn spaced(alloc: Global, spaces: usize) -> Result<Vec<u8>, AllocError> {
    let mut text = vec![in alloc; b' '; spaces]?;
    text.extend_from_slice(b"{\"functions\":[],\"steps\":0,\"version\":1}")?;
    Ok(text)
}

#[test]
fn texts_have_up_to_1048576_bytes(rt: HostRuntime) -> Result<(), Fail> {
    let alloc = rt.alloc();
    let said = answer(alloc, spaced(alloc, 1_048_538)?.as_slice());
    assert_eq!(rt; said.0, 0);
    let said = answer(alloc, spaced(alloc, 1_048_539)?.as_slice());
    assert_eq!(rt; said.0, 4);
    Ok(())
}

fn line(alloc: Global, name: &[u8], calls: u64, steps: u64, pages: u64) -> Result<Line, AllocError>
    requires calls { calls ≤ MOST_STEPS }
    requires steps { steps ≤ MOST_STEPS }
    requires pages { pages ≤ MOST_PAGES }
    ensures { IfOk result IsInRange }
{
    let name = List::from_slice(alloc, name)?;
    Ok(Line {
        name,
        calls,
        steps,
        pages,
    })
}

/// The text of a profile with these lines.
fn written(alloc: Global, steps: u64, lines: Vec<Line>) -> Result<Bytes, AllocError>
    requires steps { steps ≤ MOST_STEPS }
    requires lines { AreInRange lines.items }
{
    let lines = List::from_vec(lines);
    profile_text(alloc, &Profile { steps, lines }).map_err(|_| AllocError)
}

#[test]
fn profiles_are_written(rt: HostRuntime) -> Result<(), Fail> {
    let alloc = rt.alloc();
    let lines = vec![in alloc; line(alloc, b"main", 0, 0, 0)?]?;
    let text = written(alloc, 0, lines)?;
    assert!(rt;
        text.as_slice()
            == b"{\"functions\":[{\"calls\":0,\"name\":\"main\",\"pages\":0,\"steps\":0}],\"steps\":0,\"version\":1}".as_slice()
    );
    let lines = vec![in alloc;
        line(alloc, b"f", 1, 12002, 0)?,
        line(alloc, b"a \"\xff", 2, 9, 1)?,
    ]?;
    let text = written(alloc, 12004, lines)?;
    assert!(rt;
        text.as_slice()
            == b"{\"functions\":[{\"calls\":1,\"name\":\"f\",\"pages\":0,\"steps\":12002},{\"calls\":2,\"name\":\"\\\"a \\\\22\\\\FF\\\"\",\"pages\":1,\"steps\":9}],\"steps\":12004,\"version\":1}".as_slice()
    );
    Ok(())
}

#[test]
fn of_a_member_given_twice_the_last_counts(rt: HostRuntime) -> Result<(), Fail> {
    let text =
        b"{\"steps\":-1,\"functions\":[{\"name\":\"f\",\"calls\":1,\"steps\":2,\"pages\":3,\"name\":\"\\\"a \\\\22\\\\FF\\\"\"}],\"version\":1,\"steps\":7}";
    let profile = read_profile(rt.alloc(), text).ok().ok_or("a profile")?;
    assert_eq!(rt; profile.steps, 7);
    match profile.lines.as_slice() {
        [line] => {
            assert!(rt; line.name.as_slice() == b"a \"\xff".as_slice());
            assert_eq!(rt; line.calls, 1);
            assert_eq!(rt; line.steps, 2);
            assert_eq!(rt; line.pages, 3);
        }
        _ => assert!(rt; false),
    }
    Ok(())
}
