ghost use Rattle.std.specs.Prelude.{◌≡◌};
ghost use Rattle.no_module.specs.Externals.{at_least, declared_external, external_named, external_of, external_typed, gives, has_type, helper_named, integer_named, is_external, library_named, mark_named, memory_named, other_named, pairs_up, row_named, width_behind, width_word};

use crate::{Scalar, is_declared, is_of, is_void, takes};
use no_ir::{Function, Role, Ty};

/// A function that a module may declare and use (docs/LANGUAGE.md, "Externals"). A number is the width of integers, in bits.
#[derive(Clone, Copy, Debug, PartialEq, Eq)]
pub enum External {
    GetChar,
    PutChar,
    Puts,
    Malloc,
    Calloc,
    Free,
    Exit,
    Abort,
    /// `llvm.memcpy` and `llvm.memmove`.
    Move,
    /// `llvm.memset`.
    Set,
    /// `llvm.bswap`.
    Swap(u8),
    /// `llvm.umin`.
    UMin(u8),
    /// `llvm.umax`.
    UMax(u8),
    /// `llvm.smin`.
    SMin(u8),
    /// `llvm.smax`.
    SMax(u8),
    /// `llvm.lifetime.start`, `llvm.lifetime.end` and `llvm.assume`, which have no effect.
    Hint,
    /// In a server's part `no.alloca`, room on the stack.
    Alloca,
    /// In a server's part `no.map`, the number to call for an address of the device.
    Map,
}

/// What a name says of an external.
#[derive(Clone, Copy)]
struct Row {
    external: External,
    /// The width of the length of `Move` and `Set`, in bits; 0 for all others.
    length: u8,
}

/// The function of the C library that has a name.
fn library_named(name: &[u8]) -> Option<External>
    ensures { result ≡ library_named name.now }
{
    if name == b"getchar".as_slice() {
        Some(External::GetChar)
    } else if name == b"putchar".as_slice() {
        Some(External::PutChar)
    } else if name == b"puts".as_slice() {
        Some(External::Puts)
    } else if name == b"malloc".as_slice() {
        Some(External::Malloc)
    } else if name == b"calloc".as_slice() {
        Some(External::Calloc)
    } else if name == b"free".as_slice() {
        Some(External::Free)
    } else if name == b"exit".as_slice() {
        Some(External::Exit)
    } else if name == b"abort".as_slice() {
        Some(External::Abort)
    } else {
        None
    }
}

/// The intrinsic without effect that has a name.
fn mark_named(name: &[u8]) -> Option<External>
    ensures { result ≡ mark_named name.now }
{
    if name == b"llvm.lifetime.start.p0".as_slice() {
        Some(External::Hint)
    } else if name == b"llvm.lifetime.end.p0".as_slice() {
        Some(External::Hint)
    } else if name == b"llvm.assume".as_slice() {
        Some(External::Hint)
    } else {
        None
    }
}

fn width_word(word: &[u8]) -> Option<u8>
    ensures { result ≡ width_word word.now }
{
    if word == b"i8".as_slice() {
        Some(8)
    } else if word == b"i16".as_slice() {
        Some(16)
    } else if word == b"i32".as_slice() {
        Some(32)
    } else if word == b"i64".as_slice() {
        Some(64)
    } else {
        None
    }
}

fn at_least(least: u8, width: Option<u8>) -> Option<u8>
    ensures { result ≡ at_least least width }
{
    match width {
        Some(width) if width >= least => Some(width),
        _ => None,
    }
}

/// The width of at least so many bits behind the stem of a name.
fn width_behind(least: u8, stem: &[u8], name: &[u8]) -> Option<u8>
    ensures { result ≡ width_behind least stem.now name.now }
{
    match name.strip_prefix(stem) {
        Some(word) => at_least(least, width_word(word)),
        None => None,
    }
}

/// The intrinsic on memory that has a name.
fn memory_named(name: &[u8]) -> Option<Row>
    ensures { result ≡ memory_named name.now }
{
    if let Some(length) = width_behind(32, b"llvm.memcpy.p0.p0.", name) {
        return Some(Row {
            external: External::Move,
            length,
        });
    }
    if let Some(length) = width_behind(32, b"llvm.memmove.p0.p0.", name) {
        return Some(Row {
            external: External::Move,
            length,
        });
    }
    if let Some(length) = width_behind(32, b"llvm.memset.p0.", name) {
        return Some(Row {
            external: External::Set,
            length,
        });
    }
    None
}

/// The intrinsic on integers that has a name.
fn integer_named(name: &[u8]) -> Option<External>
    ensures { result ≡ integer_named name.now }
{
    if let Some(width) = width_behind(16, b"llvm.bswap.", name) {
        return Some(External::Swap(width));
    }
    if let Some(width) = width_behind(8, b"llvm.umin.", name) {
        return Some(External::UMin(width));
    }
    if let Some(width) = width_behind(8, b"llvm.umax.", name) {
        return Some(External::UMax(width));
    }
    if let Some(width) = width_behind(8, b"llvm.smin.", name) {
        return Some(External::SMin(width));
    }
    if let Some(width) = width_behind(8, b"llvm.smax.", name) {
        return Some(External::SMax(width));
    }
    None
}

/// What a server's part has for the device, by its name.
fn helper_named(role: Role, name: &[u8]) -> Option<External>
    ensures { result ≡ helper_named role name.now }
{
    match role {
        Role::Source => None,
        Role::Part => {
            if name == b"no.alloca".as_slice() {
                Some(External::Alloca)
            } else if name == b"no.map".as_slice() {
                Some(External::Map)
            } else {
                None
            }
        }
    }
}

/// The external that has a name and is none on memory.
fn other_named(role: Role, name: &[u8]) -> Option<External>
    ensures { result ≡ other_named role name.now }
{
    if let Some(external) = library_named(name) {
        return Some(external);
    }
    if let Some(external) = mark_named(name) {
        return Some(external);
    }
    if let Some(external) = integer_named(name) {
        return Some(external);
    }
    helper_named(role, name)
}

/// What a name says, in a module of this role.
fn row_named(role: Role, name: &[u8]) -> Option<Row>
    ensures { result ≡ row_named role name.now }
{
    if let Some(row) = memory_named(name) {
        return Some(row);
    }
    match other_named(role, name) {
        Some(external) => Some(Row {
            external,
            length: 0,
        }),
        None => None,
    }
}

/// The external that has a name, in a module of this role; whether its type is right is another question.
pub fn external_named(role: Role, name: &[u8]) -> Option<External>
    ensures { result ≡ external_named role name.now }
{
    match row_named(role, name) {
        Some(row) => Some(row.external),
        None => None,
    }
}

fn gives(scalar: Scalar, t: &Ty) -> bool
    ensures { result ≡ gives scalar t.now }
{
    is_of(scalar, Scalar::of(t))
}

/// Whether two numbers of a width give a third.
fn pairs_up(width: u8, t: &Ty, params: &[(u32, Ty)]) -> bool
    ensures { result ≡ pairs_up width t.now params.now }
{
    gives(Scalar::Int(width), t) && takes(&[Scalar::Int(width), Scalar::Int(width)], params)
}

/// Whether a result and parameters are those of an external, with a length of this width.
fn has_type(external: External, length: u8, t: &Ty, params: &[(u32, Ty)]) -> bool
    ensures { result ≡ has_type external length t.now params.now }
{
    const WORD: Scalar = Scalar::Int(32);
    const LONG: Scalar = Scalar::Int(64);
    const BIT: Scalar = Scalar::Int(1);
    match external {
        External::GetChar => gives(WORD, t) && takes(&[], params),
        External::PutChar => gives(WORD, t) && takes(&[WORD], params),
        External::Puts => gives(WORD, t) && takes(&[Scalar::Ptr], params),
        External::Malloc => gives(Scalar::Ptr, t)
            && (takes(&[WORD], params) || takes(&[LONG], params)),
        External::Calloc => gives(Scalar::Ptr, t)
            && (takes(&[WORD, WORD], params) || takes(&[LONG, LONG], params)),
        External::Free => is_void(t) && takes(&[Scalar::Ptr], params),
        External::Exit => is_void(t) && takes(&[WORD], params),
        External::Abort => is_void(t) && takes(&[], params),
        External::Move => is_void(t)
            && takes(
                &[Scalar::Ptr, Scalar::Ptr, Scalar::Int(length), BIT],
                params,
            ),
        External::Set => is_void(t)
            && takes(
                &[Scalar::Ptr, Scalar::Int(8), Scalar::Int(length), BIT],
                params,
            ),
        External::Swap(width) => gives(Scalar::Int(width), t)
            && takes(&[Scalar::Int(width)], params),
        External::UMin(width) => pairs_up(width, t, params),
        External::UMax(width) => pairs_up(width, t, params),
        External::SMin(width) => pairs_up(width, t, params),
        External::SMax(width) => pairs_up(width, t, params),
        External::Hint => is_void(t),
        External::Alloca => gives(Scalar::Ptr, t) && takes(&[LONG, LONG, LONG], params),
        External::Map => gives(Scalar::Ptr, t) && takes(&[Scalar::Ptr], params),
    }
}

/// The external that has this name, result and parameters, in a module of this role.
fn external_typed(role: Role, name: &[u8], t: &Ty, params: &[(u32, Ty)]) -> Option<External>
    ensures { result ≡ external_typed role name.now t.now params.now }
{
    match row_named(role, name) {
        Some(row) if has_type(row.external, row.length, t, params) => Some(row.external),
        _ => None,
    }
}

/// Whether a module of this role may declare and use a function of this name, result and parameters.
pub fn is_external(role: Role, name: &[u8], t: &Ty, params: &[(u32, Ty)]) -> bool
    ensures { result ≡ is_external role name.now t.now params.now }
{
    external_typed(role, name, t, params).is_some()
}

/// The external that a declared function is by its name, whatever its type; none for a defined one.
pub fn declared_external(role: Role, function: &Function) -> Option<External>
    ensures { result ≡ declared_external role function.now }
{
    if is_declared(function) {
        external_named(role, function.name.as_slice())
    } else {
        None
    }
}

/// The external that a function is: a declared one with the name, the result and the parameters of a row of the table.
pub fn external_of(role: Role, function: &Function) -> Option<External>
    ensures { result ≡ external_of role function.now }
{
    if is_declared(function) {
        external_typed(
            role,
            function.name.as_slice(),
            &function.result,
            function.params.as_slice(),
        )
    } else {
        None
    }
}
