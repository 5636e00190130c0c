//! How one try of an insert, a delete or a swap ends.

/// How a try ended.
#[derive(Clone, Copy)]
pub(crate) enum Tried {
    /// An answer: the value that an insert adds or a delete takes away, if it changes the map, or that a swap finds.
    Answered(Option<u64>),
    /// No card is left, or no slot was found that could be taken.
    Spent,
    /// Something was in its way.
    Hindered,
}
