//! Tests of the crates `meta` and `schema`, over the sample lists.
#![tactic(auto)]

#[cfg(test)]
mod builder;
#[cfg(test)]
mod changes;
#[cfg(test)]
mod metadata;
#[cfg(test)]
mod printed;
#[cfg(test)]
mod refused_memory;
#[cfg(test)]
mod relations;
#[cfg(test)]
mod said;
#[cfg(test)]
mod schemas;
#[cfg(test)]
mod wide_inputs;
