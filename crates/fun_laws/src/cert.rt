//! Certificates of rewriting.

use crate::step::Rw;
use rv_words::List;
use tailrec_lang::{Def, Group};

/// Steps of rewriting, with the group from which they start and the definitions that they give.
#[derive(Debug, Drop)]
pub struct Cert {
    pub old: Group,
    pub steps: List<Rw>,
    pub result: List<Def>,
}
