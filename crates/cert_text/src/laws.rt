//! Laws of texts. The functions do nothing: their contracts say what holds.

ghost use Rattle.text_words.specs.Laws.{ReadsWhatIsSpelled};
ghost use Rattle.cert_tree.specs.Limits.{IsLemmaWithin};
ghost use Rattle.cert_text.specs.CertificateText.{lemma_of, certificate_of};
ghost use Rattle.cert_text.specs.CertificateSpelling.{lemma_spelling, certificate_spelling, IsCertificateWithin};
ghost use Rattle.cert_text.specs.Laws.{MakesOneInAnyOrder};

use match_limits::MOST_CELLS;

/// The laws of lemmas and their texts; the call does nothing. Reading and spelling are each other's inverse, and
/// reading finds where a text is cut short.
pub fn lemma_laws()
    ensures { ReadsWhatIsSpelled lemma_of (IsLemmaWithin MOST_CELLS) lemma_spelling }
{}

/// The laws of certificates and their texts; the call does nothing.
///
/// A text may have lemmas that make no certificate: all laws but the last hold for such a text too. A certificate has
/// one spelling in each version that can spell it. The last law says that neither the version nor the order of the
/// lemma lines makes a difference.
pub fn certificate_laws()
    ensures spelled { ReadsWhatIsSpelled certificate_of IsCertificateWithin certificate_spelling }
    ensures any_order { MakesOneInAnyOrder }
{}
