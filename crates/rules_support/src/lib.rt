//! What rules share: the first places of names, lists whose entries have names, and the texts of messages.
#![tactic(auto)]

pub mod first_places;
pub mod repeats;
pub mod texts;
