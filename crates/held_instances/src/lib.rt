//! Instances of triples whose terms are numbers of an arena: terms put in for variables.
//!
//! [`instance`] makes the triple with all listed variables replaced at once, and [`is_instance`]
//! says whether a stated triple is that one. Each number whose image is asked for is kept
//! ([`ImageTable`]), so that each different term is read once, and shared subterms don't cost their
//! paths.
#![tactic(auto)]

mod image_table;
mod images;
mod instances;
mod listing;

pub use image_table::ImageTable;
pub use instances::{instance, is_instance};
