ghost use Rattle.std.specs.Prelude.{◌≡◌, ◌==◌};
ghost use Rattle.std.specs.List.{list_all};

use crate::table::PAGE_SIZE;
use no_layout::{Width, get_number};

/// Whether each byte of a page is 0.
pub fn is_zero(bytes: &[u8; 4096]) -> bool
    ensures { result ≡ list_all (λ b. b == 0) bytes.now }
{
    let bytes = &bytes[..];
    let mut at = 0;
    while at < PAGE_SIZE {
        if get_number(false, Width::Eight, &bytes[at..at + 8]) != 0 {
            return false;
        }
        at += 8;
    }
    true
}
