//! Mode `audit`: what it answers to the bytes of traces.

ghost use Rattle.std.specs.Prelude.{◌≡◌, ◌≤◌, IfOk, length};
ghost use Rattle.hex_cli.specs.AuditTexts.{IsAuditText, audit_text, is_clean};
ghost use Rattle.hex_io.specs.declared.limits.TheConstants.{INPUT_LIMIT};

use hex_cells::push_number;
use hex_devices::InputAnswer;
use std::alloc::{AllocError, Global};
use trace_audit::audit;
use trace_audit::types::Audit;

/// The answer of mode `audit`: whether the bytes are the traces of closed trees.
pub fn audit_traces(alloc: Global, input: &[u8]) -> Result<InputAnswer, AllocError>
    requires { length input.now ≤ INPUT_LIMIT }
    ensures { IfOk result (λ a. IsAuditText input.now a.text.items a.accepted) }
{
    match audit(alloc, input) {
        Ok(found) => told(alloc, found),
        Err(_) => Err(AllocError),
    }
}

// The line of an audit.
fn told(alloc: Global, found: Audit) -> Result<InputAnswer, AllocError>
    ensures text { IfOk result (λ a. a.text.items ≡ audit_text found) }
    ensures accepted { IfOk result (λ a. a.accepted ≡ is_clean found) }
{
    match found {
        Audit::Yes { trees } => {
            let mut text = b"yes ".to_vec(alloc)?;
            push_number(alloc, &mut text, u64::from(trees))?;
            text.push(b'\n')?;
            Ok(InputAnswer {
                text,
                accepted: true,
            })
        }
        Audit::No { tree, why } => {
            let mut text = b"no ".to_vec(alloc)?;
            push_number(alloc, &mut text, u64::from(tree))?;
            text.push(b' ')?;
            push_number(alloc, &mut text, u64::from(why.number()))?;
            text.push(b'\n')?;
            Ok(InputAnswer {
                text,
                accepted: false,
            })
        }
    }
}
