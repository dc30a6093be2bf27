//! Answers the whole input of a link by one text.

ghost use Rattle.std.specs.Prelude.{◌≡◌, ◌≤◌, ℕ, Bool, List, IfOk, length, Err};
ghost use Rattle.hex_io.specs.Causes.{CountsFault};
ghost use Rattle.hex_devices.specs.Inputs.{AnswersInput};
ghost use Rattle.hex_devices.specs.declared.errors.InputError.{InputError};

use crate::errors::AnswerError;
use crate::giving::give_text;
use crate::inputs::take_all;
use hex_io::Link;
use std::alloc::{AllocError, Global};

/// What is answered to an input: a text, and whether the input was accepted.
#[derive(Drop)]
pub struct InputAnswer {
    pub text: Vec<u8>,
    pub accepted: bool,
}

/// What answers each input by a text.
pub trait InputReader {
    /// That the bytes are answered by this text, accepted or not.
    ghost answers: { Self → List ℕ → List ℕ → Bool → Type 0 };

    /// The most bytes that it answers.
    ghost most: { Self → ℕ };

    /// The answer to an input. It refuses only if memory runs out.
    fn answer(&self, alloc: Global, input: &[u8]) -> Result<InputAnswer, AllocError>
        requires { length input.now ≤ most self.now }
        ensures { IfOk result (λ a. answers self.now input.now a.text.items a.accepted) };
}

/// Takes all that is to come, if it has at most `limit` bytes, and gives the text that answers it.
/// It says whether the input was accepted. The reader answers so many bytes.
///
/// Of the input `Read` comes only if the stream counted a fault of a read, and `TooLong` exactly if
/// `limit + 1` bytes were taken. `Write` comes only if the link counted a fault of a write. It
/// refuses otherwise only if memory runs out.
pub fn answer_input<L: Link, R: InputReader>(
    alloc: Global,
    link: &mut L,
    reader: &R,
    limit: usize,
) -> Result<bool, AnswerError>
    requires { limit ≤ R.most reader.now }
    ensures answers { AnswersInput (R.answers reader.now) (L.told link.old) (L.told link.new) limit
        result }
    ensures read_fault { CountsFault (L.read_faults link.old) (L.read_faults link.new)
        (result ≡ Err (AnswerError.Input InputError.Read)) }
    ensures write_fault { CountsFault (L.write_faults link.old) (L.write_faults link.new)
        (result ≡ Err AnswerError.Write) }
{
    let input = take_all(alloc, link, limit)?;
    let answer = reader.answer(alloc, &input)?;
    give_text(link, &answer.text)?;
    Ok(answer.accepted)
}
