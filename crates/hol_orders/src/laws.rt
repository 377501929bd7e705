//! Laws of orders.
ghost use Rattle.std.specs.Prelude.{◌≡◌, ℕ, List};
ghost use Rattle.hol_orders.specs.declared.order.Order.{Order};
ghost use Rattle.hol_orders.specs.Order.{Orders, asking};

/// A line is one order at most: of one kind, asking for one thing.
pub fn one_order()
    ensures { (line : List ℕ) (one other : Order) → Orders line one → Orders line other → asking one ≡ asking other }
{}
