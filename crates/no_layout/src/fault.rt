use thiserror::Error;

/// Why a string is no data layout, in the order in which one part is judged.
#[derive(Clone, Copy, Debug, PartialEq, Eq, Error)]
pub enum LayoutKind {
    /// No part states the byte order.
    #[error("no byte order is stated")]
    NoOrder,
    /// A width of pointers that is not 32 or 64, or an index width that differs from it.
    #[error("pointers are of 32 or 64 bits, and so are their indices")]
    BadWidth,
    /// A part of another form than those that are listed.
    #[error("a part is of no form that is listed")]
    BadSpec,
}

/// The first thing wrong with a layout string. Want of an order comes after all else.
#[derive(Clone, Copy, Debug, PartialEq, Eq, Error)]
#[error("{kind} at {at}")]
pub struct LayoutFault {
    pub kind: LayoutKind,
    /// Where the faulty part begins, in bytes from the string's beginning; 0 for want of an order.
    pub at: u32,
}
