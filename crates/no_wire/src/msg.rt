use no_ir::{Bytes, List};

/// A message. The device sends the first eight, the server the others.
///
/// `Load`, `LoadEnd` and `Bye` belong to no epoch; the epoch of the others is at least 1.
#[derive(Debug, Drop)]
pub enum Msg {
    /// A piece of the part's text, 1 to 65,531 bytes.
    Load {
        text: Bytes,
    },
    /// The text is whole; where the constants and the writable globals of the source end.
    LoadEnd {
        constants_end: u32,
        globals_end: u32,
    },
    /// A call of the device's function of this number: the budget left, the stack pointer at its entry, the number of live
    /// heap blocks, and at most 64 arguments.
    Start {
        epoch: u32,
        function: u32,
        budget: u64,
        sp: u32,
        blocks: u32,
        args: List<u64>,
    },
    /// Places and sizes of 1 to 8,191 live heap blocks.
    Blocks {
        epoch: u32,
        pairs: List<(u32, u32)>,
    },
    /// The 4,096 bytes of a page that was asked for.
    Page {
        epoch: u32,
        page: u32,
        bytes: Bytes,
    },
    /// A page that was asked for, whose bytes are all 0.
    Zero {
        epoch: u32,
        page: u32,
    },
    /// The session ends.
    Bye,
    /// The device gives the epoch up.
    Abandon {
        epoch: u32,
    },
    /// The server lacks a page.
    Want {
        epoch: u32,
        page: u32,
    },
    /// A piece of output, 1 to 65,531 bytes.
    Output {
        epoch: u32,
        bytes: Bytes,
    },
    /// The 4,096 bytes of a page that the server wrote.
    Dirty {
        epoch: u32,
        page: u32,
        bytes: Bytes,
    },
    /// Places and sizes of 1 to 8,191 heap blocks that changed; size 0 where the block is no longer live.
    Heap {
        epoch: u32,
        pairs: List<(u32, u32)>,
    },
    /// The call is over: how (0 returned, 1 exited, 2 trapped, 3 unfinished) with its value, what was counted, and how many
    /// `Dirty` frames, heap entries and bytes of output came before.
    Finish {
        epoch: u32,
        end: u8,
        value: u64,
        counted: u64,
        dirty: u32,
        entries: u32,
        output: u64,
    },
    /// The server does not do the call.
    Declined {
        epoch: u32,
    },
}
