//! The values of options as numbers and switches. `clap` has numbers too, but it takes a plus sign
//! and more than twenty digits.

ghost use Rattle.std.specs.Prelude.{◌≡◌, ◌<◌, ◌≤◌, ◌^◌, ℕ, Some, true, false, length, codes};
ghost use Rattle.std.specs.Prelude.{option_map, Bool, ◌↔◌};
ghost use Rattle.std.specs.Option.{SomeIff};
ghost use Rattle.std.specs.List.{list_all};
ghost use Rattle.std.specs.Str.Parse.{IsNumeral, digits_value};
ghost use Rattle.std.specs.Char.{is_ascii_digit};
ghost use Rattle.option_words.specs.Values.{IsNumberFrom, IsShortNumeral, switch_word};

// The digits of 2^64 - 1: no number in its range needs more.
const MOST_DIGITS: usize = 20;

/// The number that the text writes in one to twenty decimal digits, without a sign, if it is from
/// `least` to `most`, bounds of 64 bits.
pub fn number(text: Option<&str>, least: u64, most: u64) -> Option<u64>
    ensures { (n : ℕ) → (result ≡ Some n)
        ↔ IsNumberFrom least most (option_map (λ t. t.now) text.entry) n }
{
    let n = digits(text?)?;
    if least <= n && n <= most {
        Some(n)
    } else {
        None
    }
}

/// The number that the text writes in one to twenty decimal digits, without a sign, if it is from
/// `least` to `most`. Both bounds fit 32 bits, and so does the number.
pub fn small_number(text: Option<&str>, least: u32, most: u32) -> Option<u32>
    ensures { (n : ℕ) → (result ≡ Some n)
        ↔ IsNumberFrom least most (option_map (λ t. t.now) text.entry) n }
{
    let n = number(text, least as u64, most as u64)?;
    Some(n as u32)
}

// The number that the text writes in one to twenty decimal digits, if it fits 64 bits.
fn digits(text: &str) -> Option<u64>
    ensures { SomeIff result (IsShortNumeral text.now) (digits_value 10 text.now) }
{
    if text.len() > MOST_DIGITS {
        return None;
    }
    if !are_digits(text) {
        return None;
    }
    text.parse::<u64>().ok()
}

fn are_digits(text: &str) -> bool
    ensures { result ≡ list_all is_ascii_digit text.now }
{
    text.as_bytes().iter().all(|b| b.is_ascii_digit())
}

/// Whether the text turns a thing on; none if it is neither `on` nor `off`.
pub fn switch(text: Option<&str>) -> Option<bool>
    ensures { (b : Bool) → (result ≡ Some b)
        ↔ (option_map (λ t. t.now) text.entry ≡ Some (switch_word b)) }
{
    match text? {
        "on" => Some(true),
        "off" => Some(false),
        _ => None,
    }
}
