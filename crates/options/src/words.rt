// The words of the program's arguments.
ghost use Rattle.std.specs.Prelude.{◌≡◌, ◌+◌, ◌*◌, ◌≤◌, min};
ghost use Rattle.options.specs.Words.{too_many, word_of, number_of};

use super::Make;
use script::digits::digit;

// What a word wants after it.
#[derive(Clone, Copy)]
pub enum Wants {
    Places,
    Patch,
}

// An argument.
#[derive(Clone, Copy)]
pub enum Word {
    Make(Make),
    Wants(Wants),
    Help,
}

pub(crate) fn word_of(text: &str) -> Option<Word>
    ensures { result ≡ word_of text.now }
{
    match text {
        "lanes" => Some(Word::Make(Make::Lanes)),
        "pool" => Some(Word::Make(Make::Pool)),
        "--places" => Some(Word::Wants(Wants::Places)),
        "--patch" => Some(Word::Wants(Wants::Patch)),
        "--help" => Some(Word::Help),
        _ => None,
    }
}

// One place more than there may be: a larger number is refused as this one is, and asks for less memory.
const TOO_MANY: u32 = 65_536;

// The number that one digit more writes, or too many.
fn one_digit_more(value: u32, digit: u8) -> u32
    requires { value ≤ too_many }
    ensures { result ≡ min (10 * value + digit) too_many }
{
    (10 * value + u32::from(digit)).min(TOO_MANY)
}

// The number that a word of digits writes, or too many.
pub(crate) fn number_of(text: &[u8]) -> Option<u32>
    ensures { result ≡ number_of text.now }
{
    if text.is_empty() {
        return None;
    }
    let mut value = 0;
    for &letter in text {
        value = one_digit_more(value, digit(letter)?);
    }
    Some(value)
}
