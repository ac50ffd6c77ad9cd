ghost use Rattle.std.specs.Prelude.{◌≡◌, ◌<◌, length, MatchOption};
ghost use Rattle.no_heap.specs.Blocks.{AreLive, IsBlockAt, size_at, set_block};

use crate::block::Block;

/// The index of the block that begins at an address, found by halving.
#[tactic(auto, using(crate::proofs::Found::between_none))]
pub(crate) fn find(blocks: &[Block], addr: u64) -> Option<usize>
    requires { AreLive blocks.now }
    ensures { MatchOption result (size_at blocks.now addr ≡ 0) (λ index. IsBlockAt blocks.now addr index) }
{
    let mut low = 0;
    let mut high = blocks.len();
    while low < high {
        let middle = low + (high - low) / 2;
        let at = blocks[middle].at as u64;
        if at == addr {
            return Some(middle);
        }
        if at < addr {
            low = middle + 1;
        } else {
            high = middle;
        }
    }
    None
}
