//! What `validation` and `walk` report, beside the rows of `conformance`: events out of order, walks over every kind of
//! node, and requests for memory that are refused in turn. And runs of the program `check` in which a read or a write
//! fails.
#![tactic(auto)]

#[cfg(test)]
mod broken;
#[cfg(test)]
mod errors;
#[cfg(test)]
mod recorder;
#[cfg(test)]
mod refused_memory;
#[cfg(test)]
mod runs;
#[cfg(test)]
mod sample;
#[cfg(test)]
mod schemas;
#[cfg(test)]
mod singly;
#[cfg(test)]
mod walks;
