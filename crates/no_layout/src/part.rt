ghost use Rattle.std.specs.Prelude.{◌≡◌, ◌==◌, ◌||◌, IfOk, IsTrue};
ghost use Rattle.std.specs.Option.{option_copied};
ghost use Rattle.no_layout.specs.Field.{fields_of};
ghost use Rattle.no_layout.specs.Stated.{is_sound};
ghost use Rattle.no_layout.specs.Part.{has_no_effect, is_alignment, integer_of, integer_part, named_part, part_of, pointer_of, pointer_part, space_of};

use crate::LayoutKind;
use crate::number::{Field, cut, next_field, number};

/// What one part of a layout string states.
#[derive(Clone, Copy, Debug, PartialEq, Eq)]
pub enum Part {
    /// The byte order: whether the most significant byte comes first.
    Order(bool),
    /// The width and alignment of pointers, in bits.
    Pointer(u8, u32),
    /// Of the integer type at this place among i1, i8, i16, i32 and i64, the alignment in bits.
    Integer(u8, u32),
    /// Nothing that has an effect.
    Other,
}

const BIG: &[u8] = b"E";

const LITTLE: &[u8] = b"e";

/// What a part states, or why it is none.
pub fn read_part(piece: &[u8]) -> Result<Part, LayoutKind>
    ensures part { result ≡ part_of piece.now }
    ensures sound { IfOk result (λ part. IsTrue (is_sound part)) }
{
    if piece == BIG {
        return Ok(Part::Order(true));
    }
    if piece == LITTLE {
        return Ok(Part::Order(false));
    }
    if has_no_effect(piece) {
        return Ok(Part::Other);
    }
    let (head, fields) = cut(piece, b':');
    named(head, fields)
}

/// Whether a part is of a form that is read and says nothing here.
fn has_no_effect(piece: &[u8]) -> bool
    ensures { result ≡ has_no_effect piece.now }
{
    match piece {
        [b'm' | b'n' | b'S' | b'a' | b'f' | b'v' | b'F', ..] => true,
        [b'A' | b'P' | b'G', b'0'] => true,
        _ => false,
    }
}

/// A part of pointers or of integers, from what stands before its first colon and what stands behind it.
fn named(head: &[u8], fields: Option<&[u8]>) -> Result<Part, LayoutKind>
    ensures part { result ≡ named_part head.now (fields_of (option_copied fields.entry)) }
    ensures sound { IfOk result (λ part. IsTrue (is_sound part)) }
{
    match head {
        [b'p', space @ ..] => match space_of(space) {
            Field::Number(0) => pointer(fields),
            Field::Number(_) => Ok(Part::Other),
            _ => Err(LayoutKind::BadSpec),
        },
        [b'i', bits @ ..] => match number(bits) {
            Field::Number(bits) => integer(bits, fields),
            _ => Err(LayoutKind::BadSpec),
        },
        _ => Err(LayoutKind::BadSpec),
    }
}

/// The address space that a part of pointers is for: 0 where none is named.
fn space_of(name: &[u8]) -> Field
    ensures { result ≡ space_of name.now }
{
    if name.is_empty() {
        Field::Number(0)
    } else {
        number(name)
    }
}

fn pointer(fields: Option<&[u8]>) -> Result<Part, LayoutKind>
    ensures part { result ≡ pointer_part (fields_of (option_copied fields.entry)) }
    ensures sound { IfOk result (λ part. IsTrue (is_sound part)) }
{
    let (width, rest) = next_field(fields);
    let (align, rest) = next_field(rest);
    let (preferred, rest) = next_field(rest);
    let (index, rest) = next_field(rest);
    let (more, _) = next_field(rest);
    match width {
        Field::Number(32) => sized(32, align, preferred, index, more),
        Field::Number(64) => sized(64, align, preferred, index, more),
        Field::Number(_) => Err(LayoutKind::BadWidth),
        _ => Err(LayoutKind::BadSpec),
    }
}

/// A part of pointers of a width that is allowed, from its other fields.
fn sized(
    width: u8,
    align: Field,
    preferred: Field,
    index: Field,
    more: Field,
) -> Result<Part, LayoutKind>
    requires { IsTrue (width == 32 || width == 64) }
    ensures part { result ≡ pointer_of width align preferred index more }
    ensures sound { IfOk result (λ part. IsTrue (is_sound part)) }
{
    match index {
        Field::Number(bits) if bits != u32::from(width) => return Err(LayoutKind::BadWidth),
        Field::Word => return Err(LayoutKind::BadSpec),
        _ => {}
    }
    if preferred == Field::Word || more != Field::Absent {
        return Err(LayoutKind::BadSpec);
    }
    match align {
        Field::Number(bits) if is_alignment(bits, 64) => Ok(Part::Pointer(width, bits)),
        _ => Err(LayoutKind::BadSpec),
    }
}

fn integer(bits: u32, fields: Option<&[u8]>) -> Result<Part, LayoutKind>
    ensures part { result ≡ integer_part bits (fields_of (option_copied fields.entry)) }
    ensures sound { IfOk result (λ part. IsTrue (is_sound part)) }
{
    let (align, rest) = next_field(fields);
    let (preferred, rest) = next_field(rest);
    let (more, _) = next_field(rest);
    if preferred == Field::Word || more != Field::Absent {
        return Err(LayoutKind::BadSpec);
    }
    match align {
        Field::Number(align) => integer_of(bits, align),
        _ => Err(LayoutKind::BadSpec),
    }
}

fn integer_of(bits: u32, align: u32) -> Result<Part, LayoutKind>
    ensures part { result ≡ integer_of bits align }
    ensures sound { IfOk result (λ part. IsTrue (is_sound part)) }
{
    let place = match bits {
        1 => 0,
        8 => 1,
        16 => 2,
        32 => 3,
        64 => 4,
        _ if is_alignment(align, 1024) => return Ok(Part::Other),
        _ => return Err(LayoutKind::BadSpec),
    };
    if is_alignment(align, 64) {
        Ok(Part::Integer(place, align))
    } else {
        Err(LayoutKind::BadSpec)
    }
}

/// Whether a number is a power of two from 8 to the greatest that is allowed.
fn is_alignment(bits: u32, most: u32) -> bool
    ensures { result ≡ is_alignment bits most }
{
    matches!(bits, 8 | 16 | 32 | 64 | 128 | 256 | 512 | 1024) && bits <= most
}
