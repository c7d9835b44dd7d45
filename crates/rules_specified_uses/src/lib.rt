//! Where the variables in a value stand, by the type that is expected there and the defaults of arguments and input
//! fields (GraphQL, October 2021, section 5.8.5).
#![tactic(auto)]

pub mod input_places;
pub mod value_uses;
