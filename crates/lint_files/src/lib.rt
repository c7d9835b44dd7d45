//! The files that the program `lint` reads, from any source of files: which ones an argument stands for, and each by its
//! path.
//!
//! Proved: a directory stands for the files that are listed of it, in ascending order; each path counts once; what was
//! read of the paths stands in their order, with the bytes that are there; and the text of all has them as they are.
#![tactic(auto)]

pub mod colours;
pub mod failure;
pub mod files;
pub mod folders;
pub mod paths;
