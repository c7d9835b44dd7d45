//! Values of variables: the two dialects, and requests for memory refused in turn. What is said of values by juniper is
//! in the rows of `conformance`.
#![tactic(auto)]

#[cfg(test)]
mod customs;
#[cfg(test)]
mod dialects;
#[cfg(test)]
mod given;
#[cfg(test)]
mod operations;
#[cfg(test)]
mod pets;
#[cfg(test)]
mod refused_memory;
