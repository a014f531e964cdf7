//! Laws of bound queries in the order in which their entries are joined. A call does nothing: its contract is the law.

ghost use Rattle.bound_order.specs.Ordered.{OrderStaysBound};

/// Take a query that counts its entries, reads columns that are in view, and compares columns of one type. In that order it does so too,
/// over entries that each have their new number.
pub fn order_stays_bound()
    ensures { OrderStaysBound }
{}
