//! Modes `check` and `migrate`: what they answer to the bytes of a certificate.

ghost use Rattle.std.specs.Prelude.{◌≡◌, ◌≢◌, true, false, IfOk};
ghost use Rattle.win_cert.specs.Texts.{cert_text};
ghost use Rattle.win_cert.specs.Verdicts.{raised};
ghost use Rattle.win_cert.specs.Writable.{IsWritable};
ghost use Rattle.hex_cli.specs.CertTexts.{IsCheckText, IsMigrateText, is_yes, refusal_text};
ghost use Rattle.hex_cli.specs.CertTexts.{verdict_text};

use cert_check::check;
use conn_store::Kind;
use hex_cells::push_number;
use hex_devices::InputAnswer;
use std::alloc::{AllocError, Global};
use win_cert::{Cert, CertError, Verdict, raise, read, write};

/// The answer of mode `migrate`: the certificate in version 2 if it is of version 1 and else as it
/// was, or why there is none.
pub fn migrate_certificate(alloc: Global, input: &[u8]) -> Result<InputAnswer, AllocError>
    ensures { IfOk result (λ a. IsMigrateText input.now a.text.items a.accepted) }
{
    match read(alloc, input) {
        Ok(cert) => in_second_version(alloc, &cert),
        Err(CertError::Memory) => Err(AllocError),
        Err(error) => refused(alloc, error),
    }
}

/// The answer of mode `check`: the verdict on the certificate, or why there is none.
pub fn check_certificate(alloc: Global, input: &[u8]) -> Result<InputAnswer, AllocError>
    ensures { IfOk result (λ a. IsCheckText input.now a.text.items a.accepted) }
{
    match read(alloc, input) {
        Ok(cert) => {
            let Ok(verdict) = check(alloc, &cert) else {
                return Err(AllocError);
            };
            judged(alloc, verdict)
        }
        Err(CertError::Memory) => Err(AllocError),
        Err(error) => refused(alloc, error),
    }
}

// The certificate, in version 2 if it is of version 1.
fn in_second_version(alloc: Global, cert: &Cert) -> Result<InputAnswer, AllocError>
    requires { IsWritable cert.now }
    ensures text { IfOk result (λ a. a.text.items ≡ cert_text (raised cert.now)) }
    ensures accepted { IfOk result (λ a. a.accepted ≡ true) }
{
    let Ok(raised) = raise(alloc, cert) else {
        return Err(AllocError);
    };
    let Ok(text) = write(alloc, &raised) else {
        return Err(AllocError);
    };
    Ok(InputAnswer {
        text: text.as_slice().to_vec(alloc)?,
        accepted: true,
    })
}

// The line of a verdict.
fn judged(alloc: Global, verdict: Verdict) -> Result<InputAnswer, AllocError>
    ensures text { IfOk result (λ a. a.text.items ≡ verdict_text verdict) }
    ensures accepted { IfOk result (λ a. a.accepted ≡ is_yes verdict) }
{
    match verdict {
        Verdict::Yes {
            claim: Kind::Full,
            ..
        } => with_text(alloc, b"yes full\n", true),
        Verdict::Yes {
            claim: Kind::Semi,
            ..
        } => with_text(alloc, b"yes semi\n", true),
        Verdict::No { line, reason } => {
            let mut text = b"no ".to_vec(alloc)?;
            push_number(alloc, &mut text, u64::from(line))?;
            text.push(b' ')?;
            push_number(alloc, &mut text, u64::from(reason.number()))?;
            text.push(b'\n')?;
            Ok(InputAnswer {
                text,
                accepted: false,
            })
        }
    }
}

// The line for bytes that are no certificate.
fn refused(alloc: Global, error: CertError) -> Result<InputAnswer, AllocError>
    requires { error ≢ CertError.Memory }
    ensures text { IfOk result (λ a. a.text.items ≡ refusal_text error) }
    ensures accepted { IfOk result (λ a. a.accepted ≡ false) }
{
    match error {
        CertError::NotCert { line } => {
            let mut text = b"not a certificate at line ".to_vec(alloc)?;
            push_number(alloc, &mut text, u64::from(line))?;
            text.push(b'\n')?;
            Ok(InputAnswer {
                text,
                accepted: false,
            })
        }
        CertError::TooManyLines => with_text(alloc, b"too many lines\n", false),
        CertError::Memory => unreachable!(),
    }
}

// The answer that has this text.
fn with_text(alloc: Global, text: &[u8], accepted: bool) -> Result<InputAnswer, AllocError>
    ensures text { IfOk result (λ a. a.text.items ≡ text.now) }
    ensures accepted { IfOk result (λ a. a.accepted ≡ accepted) }
{
    Ok(InputAnswer {
        text: text.to_vec(alloc)?,
        accepted,
    })
}
