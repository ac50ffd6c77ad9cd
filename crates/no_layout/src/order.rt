ghost use Rattle.std.specs.Prelude.{◌≡◌, ◌<◌, ◌^◌, ℕ, List, length, reverse};
ghost use Rattle.std.specs.List.{All};
ghost use Rattle.no_layout.specs.Orders.{IsWidth, big_of, little_of, swapped};

use byteorder::{BigEndian, ByteOrder, LittleEndian};

/// A byte order: how numbers of 1, 2, 4 or 8 bytes stand in memory.
pub trait Order {
    ghost number_of: { List ℕ → ℕ };

    ghost bytes_of: { ℕ → ℕ → List ℕ };
    /// What was put is got back.
    ghost gets_put: { (n v : ℕ) → v < 256 ^ n → number_of (bytes_of n v) ≡ v };

    ghost length_bytes: { (n v : ℕ) → length (bytes_of n v) ≡ n };

    /// The number in these bytes.
    fn get(bytes: &[u8]) -> u64
        requires { IsWidth (length bytes.now) }
        ensures { result ≡ number_of bytes.now };

    /// Makes these bytes those of a number that fits them.
    fn put(value: u64, into: &mut [u8])
        requires width { IsWidth (length into.old) }
        requires fits { value < 256 ^ length into.old }
        ensures { into.new ≡ bytes_of (length into.old) value };
}

/// The most significant byte first.
#[derive(Clone, Copy, Debug)]
pub struct Big;

/// The least significant byte first.
#[derive(Clone, Copy, Debug)]
pub struct Little;

impl Order for Big {
    ghost use Rattle.std.specs.Int.{bytes_high_first};
    ghost use Rattle.no_layout.specs.Laws.{big_gets_put, big_length};

    ghost number_of = { big_of };

    ghost bytes_of = { bytes_high_first };

    ghost gets_put = { big_gets_put };

    ghost length_bytes = { big_length };

    #[tactic(auto, using(crate::specs::Laws::big_same))]
    fn get(bytes: &[u8]) -> u64 {
        BigEndian::read_uint(bytes, bytes.len())
    }

    fn put(value: u64, into: &mut [u8]) {
        let width = into.len();
        BigEndian::write_uint(into, value, width);
    }
}

impl Order for Little {
    ghost use Rattle.std.specs.Int.{bytes_low_first};
    ghost use Rattle.no_layout.specs.Laws.{little_gets_put, little_length};

    ghost number_of = { little_of };

    ghost bytes_of = { bytes_low_first 0 };

    ghost gets_put = { little_gets_put };

    ghost length_bytes = { little_length };

    #[tactic(auto, using(crate::specs::Laws::little_same))]
    fn get(bytes: &[u8]) -> u64 {
        LittleEndian::read_uint(bytes, bytes.len())
    }

    fn put(value: u64, into: &mut [u8]) {
        let width = into.len();
        LittleEndian::write_uint(into, value, width);
    }
}

/// The law that joins the orders: the number in the one is the number in the other with its bytes swapped.
#[tactic(auto, using(crate::specs::Laws::big_reversed, crate::specs::Laws::big_swapped, crate::specs::Laws::little_swapped))]
pub fn orders_are_swapped()
    ensures reversed { (bs : List ℕ) → big_of bs ≡ little_of (reverse bs) }
    ensures big { (bs : List ℕ) → All (λ b. b < 256) bs → big_of bs ≡ swapped (length bs) (little_of bs) }
    ensures little { (bs : List ℕ) → All (λ b. b < 256) bs → little_of bs ≡ swapped (length bs) (big_of bs) }
{}
