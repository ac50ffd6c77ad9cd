ghost use Rattle.std.specs.Prelude.{◌≡◌};
ghost use Rattle.no_profile.specs.Reading.{fault_number};

use no_ir::{Bytes, NoMemory};

/// Why no functions were selected.
#[derive(Debug, Drop)]
pub enum SelectError {
    NoMemory,
    /// The name of the first line that names no defined function, or one that an earlier line names.
    Unknown(Bytes),
}

impl From<NoMemory> for SelectError {
    ghost use Rattle.std.specs.Prelude.{◌≡◌};
    ghost use Rattle.no_profile.specs.declared.fault.SelectError.TheVariants as error;

    ghost from_gives = { λ _ e. e ≡ error.NoMemory };

    fn from(_refused: NoMemory) -> SelectError {
        SelectError::NoMemory
    }
}

/// What is wrong with a text that is no profile. Its length is judged first, then whether it is JSON, then its version, then its
/// other members.
#[derive(Debug, Drop)]
pub enum ProfileFault {
    /// The text is not JSON in UTF-8, nests deeper than 127, or is no object.
    NotJson,
    /// The name of the first member, in the order of bytes, that is missing, unknown or of another form.
    Member(Bytes),
    /// The version is this number and not 1; 0 where it is missing or no whole number below 2 to the power of 64.
    Version(u64),
    /// The text has more than 1,048,576 bytes.
    TooLong,
}

impl ProfileFault {
    /// The number that the program's lines give it.
    pub fn number(&self) -> u8
        ensures { result ≡ fault_number self.now }
    {
        match self {
            ProfileFault::NotJson => 1,
            ProfileFault::Member(_) => 2,
            ProfileFault::Version(_) => 3,
            ProfileFault::TooLong => 4,
        }
    }
}

/// Why no profile was read.
#[derive(Debug, Drop)]
pub enum ProfileError {
    NoMemory,
    Fault(ProfileFault),
}

impl From<NoMemory> for ProfileError {
    ghost use Rattle.std.specs.Prelude.{◌≡◌};
    ghost use Rattle.no_profile.specs.declared.fault.ProfileError.TheVariants as error;

    ghost from_gives = { λ _ e. e ≡ error.NoMemory };

    fn from(_refused: NoMemory) -> ProfileError {
        ProfileError::NoMemory
    }
}
