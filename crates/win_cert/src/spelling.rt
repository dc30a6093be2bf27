//! The law of spelling: a certificate has one text.

ghost use Rattle.std.specs.Prelude.{◌≡◌, ◌≢◌, Result, Ok, Err};
ghost use Rattle.win_cert.specs.Readings.{IsParsedAs};
ghost use Rattle.win_cert.specs.Texts.{cert_text};
ghost use Rattle.win_cert.specs.Writable.{HasBoard, IsWritable};
ghost use Rattle.win_cert.specs.declared.certs.Cert.{Cert};
ghost use Rattle.win_cert.specs.declared.refusals.CertError.{CertError};

/// The text of a certificate is read back as that certificate, if memory suffices. With what
/// [`read`](crate::read) ensures, a certificate has one text, and a text is that of one certificate
/// at most. It does nothing.
pub fn written_text_is_read_back()
    ensures { (cert : Cert) (r : Result Cert CertError) → HasBoard cert → IsWritable cert
        → IsParsedAs (cert_text cert) r → r ≢ Err CertError.Memory → r ≡ Ok cert }
{}
