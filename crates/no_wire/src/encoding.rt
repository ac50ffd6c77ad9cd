ghost use Rattle.std.specs.Prelude.{◌≡◌, ◌+◌, ◌<◌, ◌≤◌, ◌*◌, ◌^◌, ◌++◌, ◌∷◌, OnOk, OnErr, length, take};
ghost use Rattle.std.specs.List.{flat_map};
ghost use Rattle.no_wire.specs.Kinds.{kind_number};
ghost use Rattle.no_wire.specs.Messages.{Fits, be32, be64, finish_body, frame, framed, pair_bytes, start_body};
ghost use Rattle.no_wire.specs.Spelled.{AddsFrame, Keeps, front};

use crate::kind::Kind;
use crate::msg::Msg;
use no_ir::NoMemory;

/// Appends the length, the kind and the epoch.
fn put_front(into: &mut Vec<u8>, body: usize, kind: Kind, epoch: u32) -> Result<(), NoMemory>
    requires { body < 2 ^ 31 }
    ensures ok { OnOk result (into.new.items ≡ into.old.items ++ front (5 + body) kind epoch) }
    ensures err { OnErr result (into.new.items ≡ into.old.items) }
{
    let n = (5 + body as u32).to_be_bytes();
    let e = epoch.to_be_bytes();
    let bytes = [
        n[0],
        n[1],
        n[2],
        n[3],
        kind.number(),
        e[0],
        e[1],
        e[2],
        e[3],
    ];
    match into.extend_from_slice(&bytes) {
        Ok(()) => Ok(()),
        Err(_) => Err(NoMemory),
    }
}

/// Appends bytes.
fn put(into: &mut Vec<u8>, bytes: &[u8]) -> Result<(), NoMemory>
    ensures ok { OnOk result (into.new.items ≡ into.old.items ++ bytes.now) }
    ensures err { OnErr result (into.new.items ≡ into.old.items) }
{
    match into.extend_from_slice(bytes) {
        Ok(()) => Ok(()),
        Err(_) => Err(NoMemory),
    }
}

/// Appends bytes, and then more.
fn put_both(into: &mut Vec<u8>, bytes: &[u8], more: &[u8]) -> Result<(), NoMemory>
    ensures ok { OnOk result (into.new.items ≡ into.old.items ++ (bytes.now ++ more.now)) }
    ensures err { OnErr result (Keeps into.old.items into.new.items) }
{
    put(into, bytes)?;
    put(into, more)
}

fn put_numbers(into: &mut Vec<u8>, numbers: &[u64]) -> Result<(), NoMemory>
    ensures ok { OnOk result (into.new.items ≡ into.old.items ++ flat_map be64 numbers.now) }
    ensures err { OnErr result (Keeps into.old.items into.new.items) }
{
    for number in numbers {
        put(into, &number.to_be_bytes())?;
    }
    Ok(())
}

fn put_pairs(into: &mut Vec<u8>, pairs: &[(u32, u32)]) -> Result<(), NoMemory>
    ensures ok { OnOk result (into.new.items ≡ into.old.items ++ flat_map pair_bytes pairs.now) }
    ensures err { OnErr result (Keeps into.old.items into.new.items) }
{
    for (place, size) in pairs {
        let p = place.to_be_bytes();
        let s = size.to_be_bytes();
        put(into, &[p[0], p[1], p[2], p[3], s[0], s[1], s[2], s[3]])?;
    }
    Ok(())
}

/// Appends a frame with the number of a page.
#[tactic(auto, using(crate::proofs::Lists::keeps_before))]
fn put_page(
    into: &mut Vec<u8>,
    kind: Kind,
    epoch: u32,
    page: u32,
    bytes: &[u8],
) -> Result<(), NoMemory>
    requires { length bytes.now < 2 ^ 30 }
    ensures ok { OnOk result (into.new.items ≡ into.old.items ++ framed kind epoch (be32 page ++ bytes.now)) }
    ensures err { OnErr result (Keeps into.old.items into.new.items) }
{
    put_front(into, 4 + bytes.len(), kind, epoch)?;
    put_both(into, &page.to_be_bytes(), bytes)?;
    Ok(())
}

/// Appends a frame of bytes.
#[tactic(auto, using(crate::proofs::Lists::keeps_before))]
fn put_bytes(into: &mut Vec<u8>, kind: Kind, epoch: u32, bytes: &[u8]) -> Result<(), NoMemory>
    requires { length bytes.now < 2 ^ 30 }
    ensures ok { OnOk result (into.new.items ≡ into.old.items ++ framed kind epoch bytes.now) }
    ensures err { OnErr result (Keeps into.old.items into.new.items) }
{
    put_front(into, bytes.len(), kind, epoch)?;
    put(into, bytes)?;
    Ok(())
}

/// Appends a frame of pairs.
#[tactic(auto, using(crate::proofs::Lists::keeps_before))]
fn put_list(
    into: &mut Vec<u8>,
    kind: Kind,
    epoch: u32,
    pairs: &[(u32, u32)],
) -> Result<(), NoMemory>
    requires { length pairs.now ≤ 8191 }
    ensures ok { OnOk result (into.new.items ≡ into.old.items ++ framed kind epoch (flat_map pair_bytes pairs.now)) }
    ensures err { OnErr result (Keeps into.old.items into.new.items) }
{
    put_front(into, 8 * pairs.len(), kind, epoch)?;
    put_pairs(into, pairs)?;
    Ok(())
}

/// What a call says before its arguments: the function, the budget, the stack pointer, the number of live blocks.
#[derive(Drop)]
struct Call {
    function: u32,
    budget: u64,
    sp: u32,
    live: u32,
}

/// Appends the frame of a call.
#[tactic(auto, using(crate::proofs::Lists::keeps_before))]
fn put_start(into: &mut Vec<u8>, epoch: u32, call: &Call, args: &[u64]) -> Result<(), NoMemory>
    requires { length args.now ≤ 64 }
    ensures ok { OnOk result (into.new.items ≡ into.old.items ++ framed Kind.Start epoch (start_body call.now.function call.now.budget call.now.sp call.now.live args.now)) }
    ensures err { OnErr result (Keeps into.old.items into.new.items) }
{
    let f = call.function.to_be_bytes();
    let u = call.budget.to_be_bytes();
    let s = call.sp.to_be_bytes();
    let b = call.live.to_be_bytes();
    let fixed = [
        f[0],
        f[1],
        f[2],
        f[3],
        u[0],
        u[1],
        u[2],
        u[3],
        u[4],
        u[5],
        u[6],
        u[7],
        s[0],
        s[1],
        s[2],
        s[3],
        b[0],
        b[1],
        b[2],
        b[3],
        args.len() as u8,
    ];
    put_front(into, 21 + 8 * args.len(), Kind::Start, epoch)?;
    put(into, &fixed)?;
    put_numbers(into, args)?;
    Ok(())
}

/// How a call ended: the end and its value, what was counted, and the numbers of frames, entries and bytes before it.
#[derive(Drop)]
struct Ending {
    end: u8,
    value: u64,
    counted: u64,
    dirty: u32,
    entries: u32,
    output: u64,
}

/// Appends the frame of the end of a call.
#[tactic(auto, using(crate::proofs::Lists::keeps_before))]
fn put_finish(into: &mut Vec<u8>, epoch: u32, f: &Ending) -> Result<(), NoMemory>
    ensures ok { OnOk result (into.new.items ≡ into.old.items ++ framed Kind.Finish epoch (finish_body f.now.end f.now.value f.now.counted f.now.dirty f.now.entries f.now.output)) }
    ensures err { OnErr result (Keeps into.old.items into.new.items) }
{
    let v = f.value.to_be_bytes();
    let c = f.counted.to_be_bytes();
    let d = f.dirty.to_be_bytes();
    let e = f.entries.to_be_bytes();
    let o = f.output.to_be_bytes();
    let body = [
        f.end, v[0], v[1], v[2], v[3], v[4], v[5], v[6], v[7], c[0], c[1], c[2], c[3], c[4], c[5],
        c[6], c[7], d[0], d[1], d[2], d[3], e[0], e[1], e[2], e[3], o[0], o[1], o[2], o[3], o[4],
        o[5], o[6], o[7],
    ];
    put_front(into, 33, Kind::Finish, epoch)?;
    put(into, &body)?;
    Ok(())
}

/// Appends a frame, or a part of it out of memory.
fn put_frame(msg: &Msg, into: &mut Vec<u8>) -> Result<(), NoMemory>
    requires { Fits msg.now }
    ensures ok { OnOk result (AddsFrame into.old.items into.new.items msg.now) }
    ensures err { OnErr result (Keeps into.old.items into.new.items) }
{
    match msg {
        Msg::Load { text } => put_bytes(into, Kind::Load, 0, text.as_slice()),
        Msg::LoadEnd {
            constants_end,
            globals_end,
        } => {
            put_page(
                into,
                Kind::LoadEnd,
                0,
                *constants_end,
                &globals_end.to_be_bytes(),
            )
        }
        Msg::Start {
            epoch,
            function,
            budget,
            sp,
            blocks,
            args,
        } => {
            let call = Call {
                function: *function,
                budget: *budget,
                sp: *sp,
                live: *blocks,
            };
            put_start(into, *epoch, &call, args.as_slice())
        }
        Msg::Blocks { epoch, pairs } => put_list(into, Kind::Blocks, *epoch, pairs.as_slice()),
        Msg::Page { epoch, page, bytes } => put_page(
            into,
            Kind::Page,
            *epoch,
            *page,
            bytes.as_slice(),
        ),
        Msg::Zero { epoch, page } => put_page(into, Kind::Zero, *epoch, *page, &[]),
        Msg::Bye => put_bytes(into, Kind::Bye, 0, &[]),
        Msg::Abandon { epoch } => put_bytes(into, Kind::Abandon, *epoch, &[]),
        Msg::Want { epoch, page } => put_page(into, Kind::Want, *epoch, *page, &[]),
        Msg::Output { epoch, bytes } => put_bytes(into, Kind::Output, *epoch, bytes.as_slice()),
        Msg::Dirty { epoch, page, bytes } => put_page(
            into,
            Kind::Dirty,
            *epoch,
            *page,
            bytes.as_slice(),
        ),
        Msg::Heap { epoch, pairs } => put_list(into, Kind::Heap, *epoch, pairs.as_slice()),
        Msg::Finish {
            epoch,
            end,
            value,
            counted,
            dirty,
            entries,
            output,
        } => {
            let ending = Ending {
                end: *end,
                value: *value,
                counted: *counted,
                dirty: *dirty,
                entries: *entries,
                output: *output,
            };
            put_finish(into, *epoch, &ending)
        }
        Msg::Declined { epoch } => put_bytes(into, Kind::Declined, *epoch, &[]),
    }
}

/// Appends the one spelling of a message. Out of memory it leaves the bytes as they were.
pub fn encode(msg: &Msg, into: &mut Vec<u8>) -> Result<(), NoMemory>
    requires { Fits msg.now }
    ensures ok { OnOk result (into.new.items ≡ into.old.items ++ frame msg.now) }
    ensures err { OnErr result (into.new.items ≡ into.old.items) }
{
    let before = into.len();
    match put_frame(msg, into) {
        Ok(()) => Ok(()),
        Err(e) => {
            into.truncate(before);
            Err(e)
        }
    }
}
