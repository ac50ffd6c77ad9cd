use no_ir::List;
use no_wire::{Decoder, FeedAnswer, Msg, WireFault, encode};
use std::test::*;

/// Bytes that begin no frame, and what is wrong: the byte that is wrong comes last, but in the last row.
const FAULTS: [(&[u8], WireFault); 10] = [
    (&[0, 0, 0, 4], WireFault::Length),
    (&[1], WireFault::Length),
    (&[0, 2], WireFault::Length),
    (&[0, 1, 0, 1], WireFault::Length),
    (&[0, 0, 0, 5, 0x63], WireFault::Kind),
    (&[0, 0, 0, 6, 0x16], WireFault::Body),
    (&[0, 0, 0, 6, 1, 1], WireFault::Body),
    (&[0, 0, 0, 9, 0x11, 0, 0, 0, 0], WireFault::Body),
    (&[0, 0, 0, 38, 21, 0, 0, 0, 1, 4], WireFault::Body),
    (&[0, 0, 0, 6, 0x16, 0, 0, 0, 1, 0], WireFault::Body),
];

#[test]
fn a_frame_comes_byte_by_byte(rt: HostRuntime) -> Result<(), Fail> {
    let mut decoder = Decoder::new(rt.alloc()).ok().ok_or("room for one frame")?;
    for byte in [0, 0, 0, 9, 0x11, 0, 0, 0, 1, 0, 0, 0] {
        match decoder.feed(&[byte]) {
            FeedAnswer::Frames(messages) => assert!(rt; messages.is_empty()),
            _ => assert!(rt; false),
        }
    }
    match decoder.feed(&[16]) {
        FeedAnswer::Frames(messages) => {
            assert!(rt; matches!(messages.as_slice(), [Msg::Want { epoch: 1, page: 16 }]))
        }
        _ => assert!(rt; false),
    }
    Ok(())
}

#[test]
fn bytes_that_begin_no_frame(rt: HostRuntime) -> Result<(), Fail> {
    for (bytes, wanted) in FAULTS {
        let mut decoder = Decoder::new(rt.alloc()).ok().ok_or("room for one frame")?;
        for _ in 0..2 {
            match decoder.feed(bytes) {
                FeedAnswer::Fault { before, fault } => {
                    assert!(rt; before.is_empty());
                    assert!(rt; fault == wanted);
                }
                _ => assert!(rt; false),
            }
        }
    }
    Ok(())
}

#[test]
fn messages_are_spelled(rt: HostRuntime) -> Result<(), Fail> {
    let mut bytes = Vec::new(rt.alloc());
    let finish = Msg::Finish {
        epoch: 2,
        end: 1,
        value: 255,
        counted: 258,
        dirty: 3,
        entries: 4,
        output: 5,
    };
    encode(&Msg::Bye, &mut bytes).ok().ok_or("room")?;
    encode(&finish, &mut bytes).ok().ok_or("room")?;
    let wanted: [u8; 51] = [
        0, 0, 0, 5, 7, 0, 0, 0, 0, //
        0, 0, 0, 38, 21, 0, 0, 0, 2, 1, 0, 0, 0, 0, 0, 0, 0, 255, 0, 0, 0, 0, 0, 0, 1, 2, 0, 0, 0,
        3, 0, 0, 0, 4, 0, 0, 0, 0, 0, 0, 0, 5,
    ];
    assert!(rt; bytes.as_slice() == wanted.as_slice());
    Ok(())
}
