ghost use Rattle.std.specs.Prelude.{◌≡◌};
ghost use Rattle.no_machine.specs.Counted.{counted};

use no_ir::Role;
use std::marker::Model;
use std::sync::ledger::{Blank, Book, Ledger, Share};

/// How many instructions were counted: those of source modules and those of servers' parts.
/// Only a machine's step raises it.
#[derive(Drop)]
pub struct Steps<L: Ledger> {
    book: Book<L>,
    source: Share<L>,
    part: Share<L>,
}

impl<L: Ledger> Model for Steps<L> {
    ghost use Rattle.std.specs.Prelude.{◌<◌};
    ghost use Rattle.no_machine.specs.Counted.{Counted};

    ghost Value = { Counted };

    ghost view = { λ s. record { source = s.source.amount; part = s.part.amount } };

    ghost invariant = { λ s. (0 < s.source.parts) × (0 < s.part.parts) };
}

impl<L: Ledger> Steps<L> {
    /// Both numbers at 0. It takes no memory.
    pub fn new(blank: Blank) -> Steps<L>
        requires name { blank.name ≡ L.name }
        requires parts { blank.parts ≡ L.parts }
        requires two { blank.parts ≡ 2 }
        ensures { result ≡ record { source = 0; part = 0 } }
    {
        let (book, mut source) = blank.open::<L>();
        let part = source.split_off(1, 0);
        Steps { book, source, part }
    }

    /// Counts instructions of a module of a role.
    pub(crate) fn count(&mut self, role: Role, n: u64)
        ensures { self.new ≡ counted role n self.old }
    {
        match role {
            Role::Source => self.book.add(&mut self.source, n),
            Role::Part => self.book.add(&mut self.part, n),
        }
    }
}
