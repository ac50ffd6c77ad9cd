use no_ir::NoMemory;
use std::alloc::AllocError;

/// What is wrong at the first token that no form allows.
#[derive(Clone, Copy, Debug, PartialEq, Eq)]
pub enum Flaw {
    Syntax,
    /// A word that the profile leaves out.
    LeftOut,
    Number,
    Circle,
}

/// A flaw, and the place in bytes of its token; none where the text ends.
#[derive(Clone, Copy, Debug, PartialEq, Eq)]
pub struct Stopped {
    pub flaw: Flaw,
    pub at: Option<u32>,
}

/// Why reading stopped.
#[derive(Clone, Copy, Debug, PartialEq, Eq)]
pub enum Stop {
    NoMemory,
    Fault(Stopped),
}

impl From<AllocError> for Stop {
    ghost use Rattle.std.specs.Prelude.{◌≡◌};
    ghost use Rattle.no_read_rules.specs.declared.fault.Stop.TheVariants.{NoMemory};

    ghost from_gives = { λ _ e. e ≡ NoMemory };

    fn from(_error: AllocError) -> Stop {
        Stop::NoMemory
    }
}

impl From<NoMemory> for Stop {
    ghost use Rattle.std.specs.Prelude.{◌≡◌};
    ghost use Rattle.no_read_rules.specs.declared.fault.Stop.TheVariants as stop;

    ghost from_gives = { λ _ e. e ≡ stop.NoMemory };

    fn from(_error: NoMemory) -> Stop {
        Stop::NoMemory
    }
}
