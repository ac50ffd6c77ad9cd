ghost use Rattle.std.specs.Prelude.{◌≡◌};
ghost use Rattle.no_ir.specs.Ending.{trap_number, trap_name};

/// Why a run was stopped. The numbers count from 1 in this order.
#[derive(Clone, Copy, Debug, PartialEq, Eq)]
pub enum Trap {
    DivideByZero,
    DivideOverflow,
    BadAddress,
    ConstantWrite,
    Unreachable,
    BadFunction,
    StackOverflow,
    BadFree,
    Abort,
}

impl Trap {
    /// The number that statuses, lines and frames give it, from 1 to 9.
    pub fn number(self) -> u8
        ensures { result ≡ trap_number self }
    {
        match self {
            Trap::DivideByZero => 1,
            Trap::DivideOverflow => 2,
            Trap::BadAddress => 3,
            Trap::ConstantWrite => 4,
            Trap::Unreachable => 5,
            Trap::BadFunction => 6,
            Trap::StackOverflow => 7,
            Trap::BadFree => 8,
            Trap::Abort => 9,
        }
    }

    /// The name that the program's last line gives it.
    pub fn name(self) -> &'static str
        ensures { result.now ≡ trap_name self }
    {
        match self {
            Trap::DivideByZero => "DivideByZero",
            Trap::DivideOverflow => "DivideOverflow",
            Trap::BadAddress => "BadAddress",
            Trap::ConstantWrite => "ConstantWrite",
            Trap::Unreachable => "Unreachable",
            Trap::BadFunction => "BadFunction",
            Trap::StackOverflow => "StackOverflow",
            Trap::BadFree => "BadFree",
            Trap::Abort => "Abort",
        }
    }
}

/// How a run ended.
#[derive(Clone, Copy, Debug, PartialEq, Eq)]
pub enum End {
    /// By a return from `main` or by `exit`, with the low 8 bits of its number.
    Exited(u8),
    Trapped(Trap),
    /// The budget was used up.
    Unfinished,
}
