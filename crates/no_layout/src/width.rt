ghost use Rattle.std.specs.Prelude.{◌≡◌, ◌<◌, ◌^◌, length};
ghost use Rattle.no_layout.specs.Orders.{IsWidth, bytes_of, number_of};
ghost use Rattle.no_layout.specs.Width.{width_of};

use byteorder::{BigEndian, ByteOrder, LittleEndian};

/// How many bytes a number takes in memory.
#[derive(Clone, Copy, Debug, PartialEq, Eq)]
pub enum Width {
    One,
    Two,
    Four,
    Eight,
}

impl Width {
    /// The width of 1, 2, 4 or 8 bytes.
    pub fn of(bytes: usize) -> Width
        requires { IsWidth bytes }
        ensures { width_of result ≡ bytes }
    {
        match bytes {
            1 => Width::One,
            2 => Width::Two,
            4 => Width::Four,
            _ => Width::Eight,
        }
    }

    /// How many bytes these are.
    #[inline(always)]
    pub fn bytes(self) -> usize
        ensures { result ≡ width_of self }
    {
        match self {
            Width::One => 1,
            Width::Two => 2,
            Width::Four => 4,
            Width::Eight => 8,
        }
    }
}

/// The number in these bytes, in the order of a layout.
#[inline(always)]
#[tactic(auto, using(crate::specs::Laws::big_same, crate::specs::Laws::little_same))]
pub fn get_number(big: bool, width: Width, bytes: &[u8]) -> u64
    requires { length bytes.now ≡ width_of width }
    ensures { result ≡ number_of big bytes.now }
{
    match width {
        Width::One => u64::from(bytes[0]),
        Width::Two if big => u64::from(BigEndian::read_u16(bytes)),
        Width::Two => u64::from(LittleEndian::read_u16(bytes)),
        Width::Four if big => u64::from(BigEndian::read_u32(bytes)),
        Width::Four => u64::from(LittleEndian::read_u32(bytes)),
        Width::Eight if big => BigEndian::read_u64(bytes),
        Width::Eight => LittleEndian::read_u64(bytes),
    }
}

/// Makes these bytes those of a number that fits them, in the order of a layout.
#[inline(always)]
pub fn put_number(big: bool, width: Width, value: u64, into: &mut [u8])
    requires width { length into.old ≡ width_of width }
    requires fits { value < 256 ^ width_of width }
    ensures { into.new ≡ bytes_of big (width_of width) value }
{
    match width {
        Width::One => into[0] = value as u8,
        Width::Two if big => BigEndian::write_u16(into, value as u16),
        Width::Two => LittleEndian::write_u16(into, value as u16),
        Width::Four if big => BigEndian::write_u32(into, value as u32),
        Width::Four => LittleEndian::write_u32(into, value as u32),
        Width::Eight if big => BigEndian::write_u64(into, value),
        Width::Eight => LittleEndian::write_u64(into, value),
    }
}
