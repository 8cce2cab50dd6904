// A word of eight digits, as a patch table is written.
ghost use Rattle.std.specs.Prelude.{◌≡◌};
ghost use Rattle.script.specs.Digits.{digit_of, eight_digits};

// The value of a decimal digit.
pub fn digit(letter: u8) -> Option<u8>
    ensures { result ≡ digit_of letter }
{
    match letter {
        b'0'..=b'9' => Some(letter - b'0'),
        _ => None,
    }
}

// The values of a word of just eight digits. Whether they make a table is not asked here.
pub fn eight_digits(word: &[u8]) -> Option<[u8; 8]>
    ensures { result ≡ eight_digits word.now }
{
    match word {
        [a, b, c, d, e, f, g, h] => Some([
            digit(*a)?,
            digit(*b)?,
            digit(*c)?,
            digit(*d)?,
            digit(*e)?,
            digit(*f)?,
            digit(*g)?,
            digit(*h)?,
        ]),
        _ => None,
    }
}
