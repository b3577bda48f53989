//! What may be wrong with the texts of lemmas and certificates.

ghost use Rattle.std.specs.Prelude.{◌≡◌, Some};
ghost use Rattle.cert_text.specs.declared.faults.CertTextFault.TheVariants as texts;
ghost use Rattle.cert_text.specs.Faults.{of_certificate_text, of_assembly};
ghost use Rattle.cert_text.specs.FaultText.{cert_text_fault_text};

use cert_tree::AssembleFault;
use std::alloc::AllocError;
use std::error::Error;
use std::fmt;
use text_words::{ReadFault, TextFault};

/// Why a text has no lemma.
pub type LemmaTextFault = ReadFault;

/// Why a text has no certificate, in the order in which faults are looked for.
#[derive(Clone, Copy, PartialEq, Eq, Debug)]
pub enum CertTextFault {
    Text(TextFault),
    /// The text has no fault, but its lemmas make no certificate.
    Assemble(AssembleFault),
    Memory,
}

impl fmt::Display for CertTextFault {
    ghost output = { λ fault. Some (cert_text_fault_text fault) };

    fn fmt<W: fmt::Write>(&self, f: &mut fmt::Formatter<W>) -> fmt::Result {
        match self {
            CertTextFault::Text(fault) => write!(f, "{fault}"),
            CertTextFault::Assemble(fault) => write!(f, "{fault}"),
            CertTextFault::Memory => f.write_str("out of memory"),
        }
    }
}

impl Error for CertTextFault {}

impl From<AllocError> for CertTextFault {
    ghost from_gives = { λ _ e. e ≡ texts.Memory };

    fn from(_error: AllocError) -> CertTextFault {
        CertTextFault::Memory
    }
}

impl From<ReadFault> for CertTextFault {
    ghost from_gives = { λ fault e. e ≡ of_certificate_text fault };

    fn from(fault: ReadFault) -> CertTextFault {
        match fault {
            ReadFault::Text(fault) => CertTextFault::Text(fault),
            ReadFault::Memory => CertTextFault::Memory,
        }
    }
}

impl From<AssembleFault> for CertTextFault {
    ghost from_gives = { λ fault e. e ≡ of_assembly fault };

    fn from(fault: AssembleFault) -> CertTextFault {
        match fault {
            AssembleFault::Memory => CertTextFault::Memory,
            fault => CertTextFault::Assemble(fault),
        }
    }
}
