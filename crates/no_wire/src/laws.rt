ghost use Rattle.std.specs.Prelude.{◌≡◌, ◌++◌, List, ℕ};
ghost use Rattle.no_wire.specs.Messages.{AreMessages, IsMessage, frame};
ghost use Rattle.no_wire.specs.Streams.{IsPartial, stream_of};

use crate::msg::Msg;

/// A law, which needs no work: frames are exact.
pub fn frames_are_exact()
    // Bytes spell one message at most, and no spelling begins another one.
    ensures one_spelling { (a : Msg) (b : Msg) (x : List ℕ) (y : List ℕ) → IsMessage a → IsMessage b → frame a ++ x ≡ frame b ++ y → (a ≡ b) × (x ≡ y) }
    // Up to less than a frame, a stream is these messages and no others: so it does not matter in which pieces it comes.
    ensures one_reading { (a : List Msg) (b : List Msg) (x : List ℕ) (y : List ℕ) → AreMessages a → AreMessages b → IsPartial x → IsPartial y → stream_of a x ≡ stream_of b y → (a ≡ b) × (x ≡ y) }
{}
