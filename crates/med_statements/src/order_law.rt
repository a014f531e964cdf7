//! Laws of bound queries in the order in which their entries are joined. A call does nothing: its contract is the law.

ghost use Rattle.med_statements.specs.Ordered.{OrderIsReady, OrderAnswers, OrderStops, OrderBegins};

/// A bound query that can run over the wrappers can run in the order in which its entries are joined. It then begins the same scans, its
/// answers are answers to the query, and it stops for the reasons for which the query stops.
pub fn ordered_queries_answer()
    ensures ready { OrderIsReady }
    ensures answers { OrderAnswers }
    ensures stops { OrderStops }
    ensures begins { OrderBegins }
{}
