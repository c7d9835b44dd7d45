//! The response names of a document.
ghost use Rattle.merge_set_table.specs.Recent.{AreRecent};

use crate::recent::RecentName;
use std::collections::BTreeMap;

/// Response names by number, and those that were numbered a short while ago.
#[derive(Drop)]
pub struct ResponseNames<'a> {
    pub(crate) map: BTreeMap<&'a str, usize>,
    pub(crate) recent: Vec<Option<RecentName<'a>>>,
    ghost known: { AreRecent map recent.items },
}
