//! Kinds of step as numbers.
use ell_tree::{Exchange, Kind};

/// The last kind, which has the greatest number.
pub(crate) const LAST: Kind = Kind::Exchange(Exchange::Backtrack);

/// The number of a kind: each has one of its own, from 0 on.
pub(crate) fn number_of(kind: Kind) -> u64 {
    match kind {
        Kind::Begin => 0,
        Kind::Note => 1,
        Kind::Look => 2,
        Kind::Fill => 3,
        Kind::Exchange(exchange) => (exchange as u64).wrapping_add(4),
    }
}
