//! Laws of orders and of mixing. Each is the contract of a function that does nothing.
ghost use Rattle.std.specs.Prelude.{◌≡◌, ◌<◌, ◌^◌, ℕ};
ghost use Rattle.ell_order.specs.Mixing.{mixed, unmixed};
ghost use Rattle.ell_order.specs.Orders.{OrdersServe, fewest_reordered};

use crate::order::REORDERED_MIN;

/// An order of a list that keeps each key's operations in their order changes no answer: from every map, the replies,
/// put back to the positions of their operations, and the last map are those of the list.
pub fn orders_serve()
    // An order that keeps each key's operations in their order has the replies of the list, once they are put back, and
    // its last map.
    ensures { OrdersServe }
{}

/// Mixing can be undone, both ways, so it is one to one on the numbers of 64 bits: of all numbers, half are of the last
/// round, and so on. Orders do not rely on this: if the numbers of two keys were mixed to one, they would be of one
/// round.
pub fn mixing_can_be_undone()
    // Mixing is one to one on the numbers below 2^64.
    ensures back { (key : ℕ) → key < 2 ^ 64 → unmixed (mixed key) ≡ key }
    ensures again { (number : ℕ) → number < 2 ^ 64 → mixed (unmixed number) ≡ number }
    ensures within { (number : ℕ) → number < 2 ^ 64 → unmixed number < 2 ^ 64 }
{}

/// `REORDERED_MIN` is 1,000.
pub fn constants_are_as_defined()
    // `REORDERED_MIN` is 1,000.
    ensures { REORDERED_MIN ≡ fewest_reordered }
{}
