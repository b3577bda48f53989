//! Reads and writes the texts of certificates and of their lemmas (numbered claims, each with a tree of cases).
#![tactic(auto)]

mod character_laws;
mod crew_limits;
mod entries;
mod faults;
mod laws;
mod lemma_parts;
mod limits;
mod parts;
mod readers;
mod spellings;
mod tree_readers;

pub use character_laws::certificate_characters;
pub use crew_limits::within_limits_with;
pub use faults::{CertTextFault, LemmaTextFault};
pub use laws::{certificate_laws, lemma_laws};
pub use lemma_parts::LemmaParts;
pub use limits::{WithinLimits, are_lemmas_within_limits, are_symmetries_within_limits};
pub use parts::{CutCertificate, LemmaPart, cut_certificate};
pub use readers::{
    LemmaLines, certificate_fault_place, read_certificate, read_lemma, read_lemma_lines,
};
pub use spellings::{
    certificate_front, put_pair, write_certificate, write_lemma, write_lemma_lines,
    write_symmetries,
};
