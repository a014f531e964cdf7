//! Queries with their names resolved, whose types are not checked yet.

use crate::bound::BoundQuery;
use bind_names::TableView;
use med_syntax::Select;

/// A query whose names are resolved: what `named_query` makes of a statement, and `typed_query` of it a query that is bound.
#[derive(Drop)]
pub struct NamedQuery<'a> {
    /// The query as it is written.
    pub(crate) select: &'a Select,
    /// The tables that its entries name, once for each entry.
    pub(crate) tables: Vec<TableView<'a>>,
    /// The query, its names being places.
    pub(crate) query: BoundQuery,
}
