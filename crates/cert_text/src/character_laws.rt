//! The law of the characters of texts. The function does nothing: its contract says what holds.

ghost use Rattle.text_words.specs.Characters.{ReadsTextCharactersAlone};
ghost use Rattle.cert_text.specs.CertificateText.{certificate_of};

/// A text that spells a certificate has text characters alone; the call does nothing.
pub fn certificate_characters()
    ensures { ReadsTextCharactersAlone certificate_of }
{}
