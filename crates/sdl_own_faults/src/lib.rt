//! The faults of the definitions of a type system document that hang on no other definition (GraphQL, October 2021,
//! section 3): [`own_faults`]. They are found where the document makes no schema, too.
#![tactic(auto)]

mod all;
mod fault;
mod listed_types;
mod members;
mod names;
mod parts;
mod required_members;
mod reserved_names;
mod some_members;

pub use all::own_faults;
pub use fault::OwnFault;
