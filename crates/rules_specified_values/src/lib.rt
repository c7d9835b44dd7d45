//! The rule of October 2021 on default values of variables, where juniper departs from it (GraphQL, October 2021,
//! section 5.6.1).
#![tactic(auto)]

pub mod default_values_of_correct_type;
