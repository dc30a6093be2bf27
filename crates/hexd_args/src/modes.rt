//! The mode that a word names.

ghost use Rattle.std.specs.Prelude.{◌≡◌, ◌↔◌, Some, option_map};
ghost use Rattle.hexd_args.specs.Values.{mode_word};
ghost use Rattle.hexd_args.specs.declared.settings.Mode.{Mode};

use crate::Mode;

/// The mode that the word names.
pub fn mode(word: Option<&str>) -> Option<Mode>
    ensures { (m : Mode) → (result ≡ Some m)
        ↔ (option_map (λ t. t.now) word.entry ≡ Some (mode_word m)) }
{
    match word? {
        "htp" => Some(Mode::Htp),
        "check" => Some(Mode::Check),
        "migrate" => Some(Mode::Migrate),
        "audit" => Some(Mode::Audit),
        "sim" => Some(Mode::Sim),
        "bench" => Some(Mode::Bench),
        "solve" => Some(Mode::Solve),
        _ => None,
    }
}
