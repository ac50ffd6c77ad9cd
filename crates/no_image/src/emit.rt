ghost use Rattle.std.specs.Prelude.{◌≡◌, ◌≤◌, ◌++◌, ◌+◌, ◌-◌, ◌∷◌, [], ℕ, List, Bool, Ok, OnOk, IfOk, length, map, replicate, true};
ghost use Rattle.std.specs.List.{list_all};
ghost use Rattle.no_ir.specs.declared.types.Ty.{Ty, out-Ty};
ghost use Rattle.no_ir.specs.declared.types.Ty.TheOpen.{Ty-F};
ghost use Rattle.no_layout.specs.Sizes.{place_after, size_limit, type_align, type_size, type_stride};
ghost use Rattle.no_semantics.specs.First.{constant_bytes, element_step, elements_bytes, fields_bytes, padded, program_of};
ghost use Rattle.no_semantics.specs.Image.{addresses_of};
ghost use Rattle.no_semantics.specs.Sound.{type_fits};
ghost use Rattle.no_image.specs.Fits.{each_fits, elements_fit, fields_fit, init_fits, text_fits};

use crate::bytes::{pad, put};
use no_ir::{Const, NoMemory, Ty};
use no_semantics::{Sound, place_address, resolved};

/// The bytes of a constant of a type, behind the bytes.
#[cycle(bytes)]
#[tactic(auto, using(crate::proofs::Initial::int_scalar, crate::proofs::Initial::pointer_scalar, crate::proofs::Initial::resolved_fit))]
pub(crate) fn emit(
    sound: &Sound,
    addresses: &[u32],
    out: &mut Vec<u8>,
    c: &Const,
    t: &Ty,
) -> Result<(), NoMemory>
    requires addresses { addresses.now ≡ addresses_of sound.now.layout sound.now.sizes sound.now.«module».globals }
    requires fits { type_fits sound.now.layout sound.now.sizes t.now ≡ true }
    requires init { init_fits sound.now.«module» sound.now.layout sound.now.sizes c.now t.now ≡ true }
    ensures { OnOk result (out.new.items ≡ out.old.items ++ constant_bytes (program_of sound.now) c.now t.now) }
{
    match c {
        Const::Zero => zeros(sound, out, t),
        Const::Int(n) => put(sound, out, t, *n),
        Const::Str(text) => emit_text(sound, out, text.as_slice(), resolved(sound.module(), t)),
        Const::Array(elements) => emit_array(
            sound,
            addresses,
            out,
            elements.as_slice(),
            resolved(sound.module(), t),
        ),
        Const::Struct(fields) => emit_struct(
            sound,
            addresses,
            out,
            fields.as_slice(),
            resolved(sound.module(), t),
        ),
        Const::Address(place) => put(sound, out, t, place_address(sound, addresses, place)),
        Const::AddressAsInt(place) => put(sound, out, t, place_address(sound, addresses, place)),
        Const::IntAsPtr(n) => put(sound, out, t, *n),
    }
}

/// As many zeros as a type has bytes.
fn zeros(sound: &Sound, out: &mut Vec<u8>, t: &Ty) -> Result<(), NoMemory>
    requires { type_fits sound.now.layout sound.now.sizes t.now ≡ true }
    ensures { OnOk result (out.new.items ≡ out.old.items ++ replicate (type_size sound.now.layout sound.now.sizes t.now) 0) }
{
    let to = out.len() + sound.layout().size(sound.sizes(), t) as usize;
    pad(out, to)
}

/// The bytes of a text, each at the stride of the array's elements.
fn emit_text(sound: &Sound, out: &mut Vec<u8>, text: &[u8], t: &Ty) -> Result<(), NoMemory>
    requires fits { type_fits sound.now.layout sound.now.sizes t.now ≡ true }
    requires text { text_fits (out-Ty t.now) text.now ≡ true }
    ensures { OnOk result (out.new.items ≡ out.old.items ++ elements_bytes (type_stride sound.now.layout sound.now.sizes (element_step (out-Ty t.now))) (map (λ (b : ℕ). b ∷ []) text.now)) }
{
    match t {
        Ty::Array(_, element) => put_text(
            out,
            text,
            sound.layout().stride(sound.sizes(), element.get()) as usize,
        ),
        _ => Ok(()),
    }
}

/// Bytes at a stride.
fn put_text(out: &mut Vec<u8>, text: &[u8], stride: usize) -> Result<(), NoMemory>
    requires { stride ≤ size_limit + 7 }
    ensures { OnOk result (out.new.items ≡ out.old.items ++ elements_bytes stride (map (λ (b : ℕ). b ∷ []) text.now)) }
{
    for byte in text {
        put_byte(out, *byte, stride)?;
    }
    Ok(())
}

/// A byte, and zeros up to the next one.
fn put_byte(out: &mut Vec<u8>, byte: u8, stride: usize) -> Result<(), NoMemory>
    requires { stride ≤ size_limit + 7 }
    ensures { OnOk result (out.new.items ≡ out.old.items ++ padded stride (byte ∷ [])) }
{
    let to = out.len() + stride;
    out.push(byte)?;
    pad(out, to)
}

/// The elements of an array.
#[cycle(bytes)]
fn emit_array(
    sound: &Sound,
    addresses: &[u32],
    out: &mut Vec<u8>,
    elements: &[Const],
    t: &Ty,
) -> Result<(), NoMemory>
    requires addresses { addresses.now ≡ addresses_of sound.now.layout sound.now.sizes sound.now.«module».globals }
    requires fits { type_fits sound.now.layout sound.now.sizes t.now ≡ true }
    requires init { elements_fit (out-Ty t.now) (map (init_fits sound.now.«module» sound.now.layout sound.now.sizes) elements.now) ≡ true }
    ensures { OnOk result (out.new.items ≡ out.old.items ++ elements_bytes (type_stride sound.now.layout sound.now.sizes (element_step (out-Ty t.now))) (map (λ (f : Ty → List ℕ). f (element_step (out-Ty t.now))) (map (constant_bytes (program_of sound.now)) elements.now))) }
{
    match t {
        Ty::Array(_, element) => emit_elements(sound, addresses, out, elements, element.get()),
        _ => Ok(()),
    }
}

/// Constants of a type, at its stride.
#[cycle(bytes)]
fn emit_elements(
    sound: &Sound,
    addresses: &[u32],
    out: &mut Vec<u8>,
    elements: &[Const],
    t: &Ty,
) -> Result<(), NoMemory>
    requires addresses { addresses.now ≡ addresses_of sound.now.layout sound.now.sizes sound.now.«module».globals }
    requires fits { type_fits sound.now.layout sound.now.sizes t.now ≡ true }
    requires init { list_all (λ (fit : Ty → Bool). fit t.now) (map (init_fits sound.now.«module» sound.now.layout sound.now.sizes) elements.now) ≡ true }
    ensures { OnOk result (out.new.items ≡ out.old.items ++ elements_bytes (type_stride sound.now.layout sound.now.sizes t.now) (map (λ (f : Ty → List ℕ). f t.now) (map (constant_bytes (program_of sound.now)) elements.now))) }
{
    let stride = sound.layout().stride(sound.sizes(), t) as usize;
    for element in elements {
        let to = out.len() + stride;
        emit(sound, addresses, out, element, t)?;
        pad(out, to)?;
    }
    Ok(())
}

/// The fields of a struct.
#[cycle(bytes)]
fn emit_struct(
    sound: &Sound,
    addresses: &[u32],
    out: &mut Vec<u8>,
    fields: &[Const],
    t: &Ty,
) -> Result<(), NoMemory>
    requires addresses { addresses.now ≡ addresses_of sound.now.layout sound.now.sizes sound.now.«module».globals }
    requires fits { type_fits sound.now.layout sound.now.sizes t.now ≡ true }
    requires init { fields_fit (out-Ty t.now) (map (init_fits sound.now.«module» sound.now.layout sound.now.sizes) fields.now) ≡ true }
    ensures { OnOk result (out.new.items ≡ out.old.items ++ fields_bytes (program_of sound.now) t.now 0 [] (map (constant_bytes (program_of sound.now)) fields.now)) }
{
    match t {
        Ty::Struct(packed, types) => emit_fields(
            sound,
            addresses,
            out,
            fields,
            t,
            *packed,
            types.as_slice(),
        ),
        _ => Ok(()),
    }
}

/// The fields of a struct type, each at its offset, and zeros up to the struct's size.
#[cycle(bytes)]
fn emit_fields(
    sound: &Sound,
    addresses: &[u32],
    out: &mut Vec<u8>,
    fields: &[Const],
    t: &Ty,
    packed: bool,
    types: &[Ty],
) -> Result<(), NoMemory>
    requires addresses { addresses.now ≡ addresses_of sound.now.layout sound.now.sizes sound.now.«module».globals }
    requires fits { type_fits sound.now.layout sound.now.sizes t.now ≡ true }
    requires shape { out-Ty t.now ≡ Ty-F.Struct packed types.now }
    requires init { each_fits types.now (map (init_fits sound.now.«module» sound.now.layout sound.now.sizes) fields.now) ≡ true }
    ensures { OnOk result (out.new.items ≡ out.old.items ++ fields_bytes (program_of sound.now) t.now 0 [] (map (constant_bytes (program_of sound.now)) fields.now)) }
{
    let base = out.len();
    let mut end: u64 = 0;
    for (k, field) in fields.iter().enumerate() {
        end = emit_field(sound, addresses, out, base, field, &types[k], packed, end)?;
    }
    pad(out, base + sound.layout().size(sound.sizes(), t) as usize)?;
    Ok(())
}

/// A field of a struct that begins at `base`, behind the fields that end at `end`. It gives the field's own end.
#[cycle(bytes)]
fn emit_field(
    sound: &Sound,
    addresses: &[u32],
    out: &mut Vec<u8>,
    base: usize,
    field: &Const,
    t: &Ty,
    packed: bool,
    end: u64,
) -> Result<u64, NoMemory>
    requires addresses { addresses.now ≡ addresses_of sound.now.layout sound.now.sizes sound.now.«module».globals }
    requires fits { type_fits sound.now.layout sound.now.sizes t.now ≡ true }
    requires init { init_fits sound.now.«module» sound.now.layout sound.now.sizes field.now t.now ≡ true }
    requires end { end ≤ size_limit }
    requires base { base ≤ length out.old.items }
    ensures end { IfOk result (λ e. e ≡ place_after packed end (type_align sound.now.layout sound.now.sizes t.now) + type_size sound.now.layout sound.now.sizes t.now) }
    ensures bytes { OnOk result (out.new.items ≡ (out.old.items ++ replicate (base + place_after packed end (type_align sound.now.layout sound.now.sizes t.now) - length out.old.items) 0) ++ constant_bytes (program_of sound.now) field.now t.now) }
{
    let at = if packed {
        end
    } else {
        end.next_multiple_of(sound.layout().align(sound.sizes(), t))
    };
    pad(out, base + at as usize)?;
    emit(sound, addresses, out, field, t)?;
    Ok(at + sound.layout().size(sound.sizes(), t))
}
