//! Tests of the crates `type_system` and `type_system_validity`: what no text of a schema can say. And of the readers
//! of schemas and `sdl_faults`: memory is refused. What comes of texts is in the rows of `reader_rows`.
#![tactic(auto)]

#[cfg(test)]
mod directives;
#[cfg(test)]
mod enums;
#[cfg(test)]
mod refused_faults;
#[cfg(test)]
mod refused_memory;
#[cfg(test)]
mod shop;
#[cfg(test)]
mod told;
