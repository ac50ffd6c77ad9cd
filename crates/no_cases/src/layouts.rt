ghost use Rattle.std.specs.Prelude.{◌≡◌, IsTrue};
ghost use Rattle.no_layout.specs.Text.{is_formed};
ghost use Rattle.no_layout.specs.Sizes.{field_count};
ghost use Rattle.no_ir.specs.declared.types.Ty.{out-Ty};

use no_ir::{Boxed, Bytes, List, Ty};
use no_layout::{Big, Layout, Little, Order, Sizes, SizesFault, Width, get_number, put_number};
use std::alloc::{AllocError, Global};
use std::test::*;

fn structure(packed: bool, fields: Vec<Ty>) -> Ty {
    Ty::Struct(packed, List::from_vec(fields))
}

fn array(alloc: Global, count: u64, element: Ty) -> Result<Ty, AllocError> {
    let element = Boxed::new(alloc, element)?;
    Ok(Ty::Array(count, element))
}

/// Types 0 to 2: `struct { short; char; int; char; }`, `struct { char; long long; char; }`, and packed `struct { void *; char; long long; }`.
fn named(alloc: Global) -> Result<List<(Bytes, Ty)>, AllocError> {
    let mut types = List::new(alloc);
    types.push((
        List::new(alloc),
        structure(
            false,
            vec![in alloc; Ty::Int(16), Ty::Int(8), Ty::Int(32), Ty::Int(8)]?,
        ),
    ))?;
    types.push((
        List::new(alloc),
        structure(false, vec![in alloc; Ty::Int(8), Ty::Int(64), Ty::Int(8)]?),
    ))?;
    types.push((
        List::new(alloc),
        structure(true, vec![in alloc; Ty::Ptr, Ty::Int(8), Ty::Int(64)]?),
    ))?;
    Ok(types)
}

fn count(t: &Ty) -> usize
    ensures { result ≡ field_count (out-Ty t.now) }
{
    match t {
        Ty::Struct(_, fields) => fields.len(),
        _ => 0,
    }
}

/// Size, alignment, stride, and the offset of each field.
fn numbers(alloc: Global, layout: &Layout, sizes: &Sizes, t: &Ty) -> Result<Vec<u64>, AllocError>
    requires { IsTrue (is_formed layout.now) }
{
    let mut all = Vec::new(alloc);
    if !layout.fits(sizes, t) {
        return Ok(all);
    }
    all.push(layout.size(sizes, t))?;
    all.push(layout.align(sizes, t))?;
    all.push(layout.stride(sizes, t))?;
    for k in 0..8u32 {
        if (k as usize) < count(t) {
            all.push(layout.offset(sizes, t, k))?;
        }
    }
    Ok(all)
}

fn agrees(alloc: Global, text: &[u8], t: &Ty, want: &[u64]) -> Result<bool, AllocError> {
    let types = named(alloc)?;
    if text.len() > 1000 || types.len() > 1000 {
        return Ok(false);
    }
    let Ok(layout) = Layout::read(text) else {
        return Ok(false);
    };
    let Ok(sizes) = layout.sizes(alloc, &types) else {
        return Ok(false);
    };
    let found = numbers(alloc, &layout, &sizes, t)?;
    Ok(found.as_slice() == want)
}

const MIPS: &[u8] = b"E-m:m-p:32:32-i8:8:32-i16:16:32-i64:64-n32-S64";

const I386: &[u8] =
    b"e-m:e-p:32:32-p270:32:32-p271:32:32-p272:64:64-i128:128-f64:32:64-f80:32-n8:16:32-S128";

const X86_64: &[u8] =
    b"e-m:e-p270:32:32-p271:32:32-p272:64:64-i64:64-i128:128-f80:128-n8:16:32:64-S128";

// The numbers are those of `sizeof`, `_Alignof` and `offsetof` of these structs in C, by
// `clang --target=T -S -emit-llvm -O0 -o - offsets.c` with T `mips-linux-gnu`, `i386-linux-gnu` and `x86_64-linux-gnu`,
// where offsets.c has them in one constant array.
#[test]
fn structs_lie_as_in_c(rt: HostRuntime) -> Result<(), AllocError> {
    let alloc = rt.alloc();
    let mixed = structure(
        false,
        vec![in alloc; Ty::Int(8), Ty::Ptr, Ty::Int(16), Ty::Int(64)]?,
    );
    let nested = structure(
        false,
        vec![in alloc; Ty::Named(0), Ty::Named(1), Ty::Int(8)]?,
    );
    let arrays = structure(
        false,
        vec![in alloc;
            array(alloc, 3, Ty::Int(8))?,
            array(alloc, 2, Ty::Int(16))?,
            array(alloc, 1, Ty::Int(64))?,
        ]?,
    );
    let packed = structure(true, vec![in alloc; Ty::Ptr, Ty::Int(8), Ty::Int(64)]?);
    let around = structure(
        false,
        vec![in alloc; Ty::Int(8), Ty::Named(2), Ty::Int(32)]?,
    );
    for (text, t, want) in [
        (MIPS, &mixed, [24, 8, 24, 0, 4, 8, 16].as_slice()),
        (I386, &mixed, [20, 4, 20, 0, 4, 8, 12].as_slice()),
        (X86_64, &mixed, [32, 8, 32, 0, 8, 16, 24].as_slice()),
        (MIPS, &nested, [48, 8, 48, 0, 16, 40].as_slice()),
        (I386, &nested, [32, 4, 32, 0, 12, 28].as_slice()),
        (X86_64, &nested, [48, 8, 48, 0, 16, 40].as_slice()),
        (MIPS, &arrays, [16, 8, 16, 0, 4, 8].as_slice()),
        (I386, &arrays, [16, 4, 16, 0, 4, 8].as_slice()),
        (X86_64, &arrays, [16, 8, 16, 0, 4, 8].as_slice()),
        (MIPS, &packed, [13, 1, 13, 0, 4, 5].as_slice()),
        (X86_64, &packed, [17, 1, 17, 0, 8, 9].as_slice()),
        (MIPS, &around, [20, 4, 20, 0, 1, 16].as_slice()),
        (X86_64, &around, [24, 4, 24, 0, 1, 20].as_slice()),
    ] {
        assert!(rt; agrees(alloc, text, t, want)?, "{text:?} {want:?}");
    }
    Ok(())
}

#[test]
fn other_types_have_their_numbers(rt: HostRuntime) -> Result<(), AllocError> {
    let alloc = rt.alloc();
    let wide = b"E-p:32:64".as_slice();
    let tight = structure(true, vec![in alloc; Ty::Ptr, Ty::Int(8)]?);
    let loose = structure(false, vec![in alloc; Ty::Ptr, Ty::Int(8)]?);
    let pointers = array(alloc, 3, Ty::Ptr)?;
    let none = array(alloc, 0, Ty::Int(64))?;
    let empty = structure(false, Vec::new(alloc));
    for (text, t, want) in [
        (wide, &Ty::Ptr, [4, 8, 8].as_slice()),
        (wide, &tight, [5, 1, 5, 0, 4].as_slice()),
        (wide, &loose, [8, 8, 8, 0, 4].as_slice()),
        (wide, &pointers, [24, 8, 24].as_slice()),
        (MIPS, &none, [0, 8, 0].as_slice()),
        (MIPS, &empty, [0, 1, 0].as_slice()),
        (MIPS, &Ty::Int(1), [1, 1, 1].as_slice()),
        (I386, &Ty::Int(64), [8, 4, 8].as_slice()),
        (X86_64, &Ty::Named(1), [24, 8, 24].as_slice()),
        (I386, &Ty::Named(1), [16, 4, 16].as_slice()),
        (I386, &Ty::Named(2), [13, 1, 13].as_slice()),
    ] {
        assert!(rt; agrees(alloc, text, t, want)?, "{text:?} {want:?}");
    }
    Ok(())
}

fn fault(alloc: Global, first: Ty, second: Ty) -> Result<Option<SizesFault>, AllocError> {
    let mut types: List<(Bytes, Ty)> = List::new(alloc);
    types.push((List::new(alloc), first))?;
    types.push((List::new(alloc), second))?;
    if types.len() > 1000 {
        return Ok(None);
    }
    let Ok(layout) = Layout::read(b"E-p:32:32-i64:64".as_slice()) else {
        return Ok(None);
    };
    match layout.sizes(alloc, &types) {
        Ok(_) => Ok(None),
        Err(fault) => Ok(Some(fault)),
    }
}

#[test]
fn large_types_are_named(rt: HostRuntime) -> Result<(), AllocError> {
    let alloc = rt.alloc();
    let large = array(alloc, 1_000_000_000, Ty::Int(8))?;
    assert!(rt; fault(alloc, Ty::Int(8), large)? == Some(SizesFault::TooLarge(1)));
    let most = array(alloc, 0x1000_0000, Ty::Int(8))?;
    assert!(rt; fault(alloc, most, Ty::Int(8))? == None);
    let more = array(alloc, 0x1000_0001, Ty::Int(8))?;
    assert!(rt; fault(alloc, more, Ty::Int(8))? == Some(SizesFault::TooLarge(0)));
    let inside = array(alloc, 0, array(alloc, 1_000_000_000, Ty::Int(8))?)?;
    assert!(rt; fault(alloc, Ty::Ptr, inside)? == Some(SizesFault::TooLarge(1)));
    let wraps = array(alloc, u64::MAX, Ty::Int(64))?;
    assert!(rt; fault(alloc, wraps, Ty::Int(8))? == Some(SizesFault::TooLarge(0)));
    let half = array(alloc, 0x0800_0001, Ty::Int(8))?;
    let pair = structure(false, vec![in alloc; Ty::Named(0), Ty::Named(0)]?);
    assert!(rt; fault(alloc, half, pair)? == Some(SizesFault::TooLarge(1)));
    Ok(())
}

/// On each line a string, and behind a `=` what it states: order, width and alignment of pointers, and the alignments
/// of i1, i8, i16, i32 and i64; or the fault and its place. The first ten are those of real targets: MIPS and ARM in
/// both orders, i386, x86-64, PowerPC, s390x and AArch64.
const STRINGS: &str = "E-m:m-p:32:32-i8:8:32-i16:16:32-i64:64-n32-S64=big 32 32 8 8 16 32 64
e-m:m-p:32:32-i8:8:32-i16:16:32-i64:64-n32-S64=little 32 32 8 8 16 32 64
e-m:e-p:32:32-Fi8-i64:64-v128:64:128-a:0:32-n32-S64=little 32 32 8 8 16 32 64
E-m:e-p:32:32-Fi8-i64:64-v128:64:128-a:0:32-n32-S64=big 32 32 8 8 16 32 64
e-m:e-p:32:32-p270:32:32-p271:32:32-p272:64:64-i128:128-f64:32:64-f80:32-n8:16:32-S128=little 32 32 8 8 16 32 32
e-m:e-p270:32:32-p271:32:32-p272:64:64-i64:64-i128:128-f80:128-n8:16:32:64-S128=little 64 64 8 8 16 32 64
E-m:e-p:32:32-Fn32-i64:64-n32=big 32 32 8 8 16 32 64
e-m:e-Fn32-i64:64-n32:64-S128-v256:256:256-v512:512:512=little 64 64 8 8 16 32 64
E-m:e-i1:8:16-i8:8:16-i64:64-f128:64-v128:64-a:8:16-n32:64=big 64 64 8 8 16 32 64
e-m:e-i8:8:32-i16:16:32-i64:64-i128:128-n32:64-S128=little 64 64 8 8 16 32 64
E=big 64 64 8 8 16 32 32
e=little 64 64 8 8 16 32 32
E-e=little 64 64 8 8 16 32 32
e-p:32:32-p:64:16=little 64 16 8 8 16 32 32
e-p:64:64-p0:32:32=little 32 32 8 8 16 32 32
e-p00:032:0032:0:32=little 32 32 8 8 16 32 32
e-p:64:8:7:64=little 64 8 8 8 16 32 32
e-p1:16:x-p01:0:0:0:0:0:0-p2=little 64 64 8 8 16 32 32
e-i1:16-i8:32-i16:64-i32:8-i64:64=little 64 64 16 32 64 8 64
i64:64-i64:16-e=little 64 64 8 8 16 32 16
e-i128:128-i0:8-i24:1024-i016:8=little 64 64 8 8 8 32 32
e-i16:8:99999999999999999999=little 64 64 8 8 8 32 32
e-A0-P0-G0-ni:1-n32-S128-a-f-v-F-m=little 64 64 8 8 16 32 32
=NoOrder 0
p:32:32-i64:64=NoOrder 0
n32=NoOrder 0
e-p:16:8-i8:8-i16:8-n8-a:8=BadWidth 2
e-P1-p:16:8-i8:8-i16:8-i32:8-i64:8-f32:8-f64:8-n8:16-a:8=BadSpec 2
e-m:e-p:16:16-i32:16-i64:16-f32:16-f64:16-a:8-n8:16-S16=BadWidth 6
e-p:32:32:32:64=BadWidth 2
e-p:32:7:x:64:1=BadWidth 2
e-p:16=BadWidth 2
e-p:99999999999999999999:x=BadWidth 2
p:0:8-x=BadWidth 0
e-p:x:32:32:64=BadSpec 2
e-p:=BadSpec 2
e-p=BadSpec 2
e-p:32=BadSpec 2
e-p:32:128=BadSpec 2
e-p:32:12=BadSpec 2
e-p:32:4=BadSpec 2
e-p:32:32:=BadSpec 2
e-p:32:32:32:x=BadSpec 2
e-p:32:32:32:32:32=BadSpec 2
e-p1x:32:32=BadSpec 2
e-=BadSpec 2
-e=BadSpec 0
e--n32=BadSpec 2
e-n32-A1=BadSpec 6
e-G0:1=BadSpec 2
e-P:32:32=BadSpec 2
I64:64=BadSpec 0
e-M:e=BadSpec 2
E:1=BadSpec 0
e-i8:12=BadSpec 2
e-i64:128=BadSpec 2
e-i128:2048=BadSpec 2
e-i8:8:x=BadSpec 2
e-i8:8:8:8=BadSpec 2
e-i:8=BadSpec 2
e-i8=BadSpec 2
e-i64:64-p:16:16-x=BadWidth 9
e-x-p:16:16=BadSpec 2
 e=BadSpec 0";

/// What a string states, or its fault.
fn stated(alloc: Global, text: &[u8]) -> Result<String, AllocError> {
    if text.len() > 1000 {
        return Ok(String::new(alloc));
    }
    match Layout::read(text) {
        Err(fault) => format!(in alloc; "{:?} {}", fault.kind, fault.at),
        Ok(layout) => {
            let order = if layout.big { "big" } else { "little" };
            let [bit, byte, short, word, long] = layout.int_align;
            format!(in alloc;
                "{order} {} {} {bit} {byte} {short} {word} {long}",
                layout.pointer, layout.pointer_align
            )
        }
    }
}

#[test]
fn strings_state_what_they_say(rt: HostRuntime) -> Result<(), Fail> {
    let mut count = 0u64;
    for line in STRINGS.split('\n') {
        let (text, wanted) = line
            .split_once('=')
            .ok_or("a line with a sign of equality")?;
        let found = stated(rt.alloc(), text.as_bytes())?;
        assert_eq!(rt; found.as_str(), wanted, "{text}");
        count = count.saturating_add(1);
    }
    assert_eq!(rt; count, 64);
    Ok(())
}

#[test]
fn numbers_stand_in_both_orders(rt: HostRuntime) {
    let bytes = [1, 2, 3, 4, 5, 6, 7, 8];
    for (width, big, little) in [
        (Width::One, 0x01, 0x01),
        (Width::Two, 0x0102, 0x0201),
        (Width::Four, 0x0102_0304, 0x0403_0201),
        (Width::Eight, 0x0102_0304_0506_0708, 0x0807_0605_0403_0201),
    ] {
        let front = &bytes[..width.bytes()];
        assert_eq!(rt; get_number(true, width, front), big);
        assert_eq!(rt; get_number(false, width, front), little);
    }
    assert_eq!(rt; Big::get(&[255, 0]), 65_280);
    assert_eq!(rt; Little::get(&[255, 0]), 255);
}

#[test]
fn numbers_are_put_in_both_orders(rt: HostRuntime) {
    let mut four = [0; 4];
    put_number(true, Width::Four, 0x0A0B_0C0D, &mut four);
    assert!(rt; four == [10, 11, 12, 13]);
    put_number(false, Width::Four, 0x0A0B_0C0D, &mut four);
    assert!(rt; four == [13, 12, 11, 10]);
    let mut two = [0; 2];
    Big::put(258, &mut two);
    assert!(rt; two == [1, 2]);
    Little::put(258, &mut two);
    assert!(rt; two == [2, 1]);
}
