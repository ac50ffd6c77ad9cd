ghost use Rattle.std.specs.Prelude.{◌≡◌, ◌↔◌, ◌≤◌, IsTrue};
ghost use Rattle.no_wire.specs.Kinds.{HasLength, is_of_no_epoch, kind_at, kind_number};

/// The kind of a message.
#[derive(Clone, Copy, Debug, PartialEq, Eq)]
pub enum Kind {
    Load,
    LoadEnd,
    Start,
    Blocks,
    Page,
    Zero,
    Bye,
    Abandon,
    Want,
    Output,
    Dirty,
    Heap,
    Finish,
    Declined,
}

impl Kind {
    /// Its number in a frame.
    pub fn number(self) -> u8
        ensures { result ≡ kind_number self }
    {
        match self {
            Kind::Load => 1,
            Kind::LoadEnd => 2,
            Kind::Start => 3,
            Kind::Blocks => 4,
            Kind::Page => 5,
            Kind::Zero => 6,
            Kind::Bye => 7,
            Kind::Abandon => 8,
            Kind::Want => 17,
            Kind::Output => 18,
            Kind::Dirty => 19,
            Kind::Heap => 20,
            Kind::Finish => 21,
            Kind::Declined => 22,
        }
    }

    /// The kind of a number, if it is that of one.
    pub fn of(number: u8) -> Option<Kind>
        ensures { result ≡ kind_at number }
    {
        match number {
            1 => Some(Kind::Load),
            2 => Some(Kind::LoadEnd),
            3 => Some(Kind::Start),
            4 => Some(Kind::Blocks),
            5 => Some(Kind::Page),
            6 => Some(Kind::Zero),
            7 => Some(Kind::Bye),
            8 => Some(Kind::Abandon),
            17 => Some(Kind::Want),
            18 => Some(Kind::Output),
            19 => Some(Kind::Dirty),
            20 => Some(Kind::Heap),
            21 => Some(Kind::Finish),
            22 => Some(Kind::Declined),
            _ => None,
        }
    }

    /// Whether its messages belong to no epoch.
    pub(crate) fn is_of_no_epoch(self) -> bool
        ensures { result ≡ is_of_no_epoch self }
    {
        matches!(self, Kind::Load | Kind::LoadEnd | Kind::Bye)
    }

    /// Whether a frame of this kind can say this length.
    pub(crate) fn has_length(self, length: u32) -> bool
        ensures { IsTrue result ↔ HasLength self length }
    {
        match self {
            Kind::Load | Kind::Output => 6 <= length,
            Kind::LoadEnd => length == 13,
            Kind::Start => 26 <= length && length <= 538 && (length - 26) % 8 == 0,
            Kind::Blocks | Kind::Heap => 13 <= length && length <= 65533 && (length - 5) % 8 == 0,
            Kind::Page | Kind::Dirty => length == 4105,
            Kind::Zero | Kind::Want => length == 9,
            Kind::Bye | Kind::Abandon | Kind::Declined => length == 5,
            Kind::Finish => length == 38,
        }
    }
}
