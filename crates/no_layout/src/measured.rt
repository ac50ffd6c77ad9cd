ghost use Rattle.std.specs.Prelude.{IsTrue, map};
ghost use Rattle.no_layout.specs.Text.{is_formed};
ghost use Rattle.no_layout.specs.Sizes.{fields_of, measure_of, whole};
ghost use Rattle.no_layout.specs.Measured.{IsMeasured};
ghost use Rattle.no_layout.specs.Measures.{IsEnd};

use crate::extent::{Extent, array, integer, pointer, whole, with_field};
use crate::{Layout, Sizes};
use no_ir::Ty;

impl Layout {
    /// The numbers of a type, where it and each type inside it is not too large.
    #[cycle(measure)]
    pub(crate) fn measured(&self, sizes: &Sizes, ty: &Ty) -> Option<Extent>
        requires { IsTrue (is_formed self.now) }
        ensures { IsMeasured result (measure_of self.now sizes.now ty.now) }
    {
        match ty {
            Ty::Void => Some(Extent { size: 0, align: 1 }),
            Ty::Int(width) => Some(integer(self, *width)),
            Ty::Ptr => Some(pointer(self)),
            Ty::Array(count, element) => match self.measured(sizes, element.get()) {
                None => None,
                Some(element) => array(*count, element),
            },
            Ty::Struct(packed, fields) => self.structure(sizes, *packed, fields.as_slice()),
            Ty::Named(number) => Some(sizes.known(*number)),
        }
    }

    /// The numbers of a struct by its fields.
    #[cycle(measure)]
    #[tactic(auto, using(crate::proofs::Fields::whole_over))]
    fn structure(&self, sizes: &Sizes, packed: bool, fields: &[Ty]) -> Option<Extent>
        requires { IsTrue (is_formed self.now) }
        ensures { IsMeasured result (whole packed (fields_of packed (map (measure_of self.now sizes.now) fields.now))) }
    {
        match self.end_of(sizes, packed, fields) {
            None => None,
            Some(all) => whole(packed, all),
        }
    }

    /// Where these fields of a struct end, and the greatest of their alignments.
    #[cycle(measure)]
    pub(crate) fn end_of(&self, sizes: &Sizes, packed: bool, fields: &[Ty]) -> Option<Extent>
        requires { IsTrue (is_formed self.now) }
        ensures { IsEnd result (fields_of packed (map (measure_of self.now sizes.now) fields.now)) }
    {
        let mut all = Extent { size: 0, align: 1 };
        for field in fields {
            let one = match self.measured(sizes, field) {
                None => return None,
                Some(one) => one,
            };
            all = match with_field(packed, all, one) {
                None => return None,
                Some(more) => more,
            };
        }
        Some(all)
    }
}
