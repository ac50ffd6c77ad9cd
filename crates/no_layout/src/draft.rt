ghost use Rattle.std.specs.Prelude.{◌≡◌, IfOk, IsTrue};
ghost use Rattle.no_layout.specs.Text.{are_formed, is_formed, ordered, unstated};
ghost use Rattle.no_layout.specs.Stated.{is_sound, with_part};

use crate::part::Part;
use crate::{Layout, LayoutFault, LayoutKind};

/// What the parts so far state.
#[derive(Clone, Copy, Debug, PartialEq, Eq)]
pub struct Draft {
    pub order: Option<bool>,
    pub pointer: u8,
    pub pointer_align: u32,
    pub int_align: [u32; 5],
}

impl Draft {
    /// What holds where nothing is stated.
    pub fn new() -> Draft
        ensures unstated { result ≡ unstated }
        ensures formed { IsTrue (are_formed result.pointer result.pointer_align result.int_align) }
    {
        Draft {
            order: None,
            pointer: 64,
            pointer_align: 64,
            int_align: [8, 8, 16, 32, 32],
        }
    }

    /// The part's statement replaces an earlier one.
    pub fn state(&mut self, part: Part)
        requires { IsTrue (is_sound part) }
        ensures stated { self.new ≡ with_part part self.old }
        ensures formed { IsTrue (are_formed self.old.pointer self.old.pointer_align self.old.int_align) → IsTrue (are_formed self.new.pointer self.new.pointer_align self.new.int_align) }
    {
        match part {
            Part::Order(big) => self.order = Some(big),
            Part::Pointer(width, align) => {
                self.pointer = width;
                self.pointer_align = align;
            }
            Part::Integer(place, align) => self.int_align[place as usize] = align,
            Part::Other => {}
        }
    }

    /// The layout, which has to have an order.
    pub fn finish(self) -> Result<Layout, LayoutFault>
        requires { IsTrue (are_formed self.pointer self.pointer_align self.int_align) }
        ensures layout { result ≡ ordered self.order self }
        ensures formed { IfOk result (λ layout. IsTrue (is_formed layout)) }
    {
        match self.order {
            None => Err(LayoutFault {
                kind: LayoutKind::NoOrder,
                at: 0,
            }),
            Some(big) => {
                let int_align = self.int_align;
                Ok(Layout {
                    big,
                    pointer: self.pointer,
                    pointer_align: self.pointer_align,
                    int_align,
                })
            }
        }
    }
}
