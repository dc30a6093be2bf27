//! Requests that are to be asked over the devices.

ghost use Rattle.std.specs.Prelude.{◌≡◌, ◌≤◌, [], vec_len};
ghost use Rattle.std.specs.Fmt.{decimal};
ghost use Rattle.std.specs.Option.{option_map_or};
ghost use Rattle.htp_line.specs.declared.answer.TheConstants.{ID_LIMIT};

use hex_engine::Using;
use htp_line::Request;

/// A request, the command that the engine told it asks for, and the text of its id.
#[derive(Drop)]
pub struct Question {
    pub request: Request,
    pub command: Using,
    pub id: Vec<u8>,
    ghost spelled: { id.items ≡ option_map_or decimal request.id [] },
    ghost short: { vec_len id ≤ ID_LIMIT },
}
