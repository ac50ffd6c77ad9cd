/// What is wrong with bytes that begin no frame: the first of the three.
#[derive(Clone, Copy, Debug, PartialEq, Eq)]
pub enum WireFault {
    /// No number from 5 to 65,536 begins so.
    Length,
    /// The byte behind the length is the number of no kind.
    Kind,
    /// No frame of this length and kind goes on so.
    Body,
}
