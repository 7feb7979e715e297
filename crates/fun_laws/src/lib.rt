//! Certificates that a function was rewritten by laws of words and conditions: the table of laws, a
//! term rewritten by a law at a place, and terms that no law rewrites; certificates' text, their
//! judge, and a maker.
#![tactic(auto)]

mod apart;
mod cert;
mod judge;
mod laws;
mod log;
mod made;
mod place;
mod put;
mod read;
mod rewrite;
mod rewriting_laws;
mod rows;
mod shape;
mod simple;
mod simplification;
mod step;
mod step_rows;
mod term_laws;

pub use cert::Cert;
pub use judge::{CertFault, judge_cert};
pub use laws::{law_of_cert_texts, law_of_limits};
pub use log::Log;
pub use place::{rewrite_cond, rewrite_mem, rewrite_word};
pub use put::cert_bytes;
pub use read::read_cert;
pub use rewriting_laws::{law_of_one_result, law_of_rewriting};
pub use shape::{Shape, shape_of};
pub use simple::{simple_cond, simple_mem, simple_word};
pub use simplification::simplify;
pub use step::Rw;
pub use term_laws::{law_of_one_term, law_of_values};
