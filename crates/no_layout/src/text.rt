ghost use Rattle.std.specs.Prelude.{◌≡◌, ◌<◌, ◌^◌, length, IfOk, IsTrue};
ghost use Rattle.no_layout.specs.Text.{is_formed, layout_of};

use crate::draft::Draft;
use crate::number::cut;
use crate::part::read_part;
use crate::{Layout, LayoutFault};

impl Layout {
    /// The layout that a data layout string states (docs/FORMATS.md, "Data layout strings").
    ///
    /// The first part in the order of the text that is faulty decides, and `at` is where it begins.
    /// Want of a byte order comes last. A later part replaces an earlier one.
    #[tactic(auto, using(crate::proofs::Left::left_first, crate::proofs::Left::left_more, crate::proofs::Left::left_last, crate::proofs::Left::left_fault))]
    pub fn read(text: &[u8]) -> Result<Layout, LayoutFault>
        requires { length text.now < 2 ^ 32 }
        ensures read { result ≡ layout_of text.now }
        ensures formed { IfOk result (λ layout. IsTrue (is_formed layout)) }
    {
        let mut draft = Draft::new();
        if text.is_empty() {
            return draft.finish();
        }
        let mut at: u32 = 0;
        let mut rest = text;
        loop {
            let (piece, behind) = cut(rest, b'-');
            match read_part(piece) {
                Err(kind) => return Err(LayoutFault { kind, at }),
                Ok(part) => draft.state(part),
            }
            match behind {
                None => return draft.finish(),
                Some(more) => {
                    at += piece.len() as u32 + 1;
                    rest = more;
                }
            }
        }
    }
}
