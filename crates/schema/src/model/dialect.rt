//! By whose rules values are judged.

/// By whose rules values and documents are judged against a schema.
#[derive(Clone, Copy, Debug, PartialEq, Eq)]
pub enum Dialect {
    /// juniper's.
    Juniper,
    /// Those of GraphQL, October 2021.
    October2021,
}
