//! Bytes that come from sources and go to sinks, texts that are read and written whole, and files by their names.
#![tactic(auto)]

mod documents;
mod fakes;
mod faults;
mod files;
mod inputs;
mod made_files;
mod outputs;
mod readings;
mod refusals;
mod sinks;
mod sources;
mod texts;
mod writings;

pub use documents::{Documents, OwnedDocuments, TwoTexts, cut_joined};
pub use fakes::Fake;
pub use faults::{Document, FileFault, InputFault};
pub use files::FileSystem;
pub use inputs::{Inputs, JoinedSource, NoSource, OneSource, ThreeSources, TwoSources};
pub use made_files::{MadeFiles, NotMade, NotPut, ProductNames, Unsettled, make_both, settle};
pub use outputs::{OneSink, Outputs, Products, ThreeSinks};
pub use readings::{read_text, read_whole};
pub use refusals::Refusal;
pub use sinks::Sink;
pub use sources::{Failed, Source};
pub use texts::{MadeText, Text, write_made};
pub use writings::write_whole;
