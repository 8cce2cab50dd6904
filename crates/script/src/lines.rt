// A line of the script: a channel, a blank and a caption's text.
ghost use Rattle.std.specs.Prelude.{◌≡◌, ◌<◌, length, position, Some, None, Ok, Err, MatchOption, MatchResult, ◌==◌};
ghost use Rattle.script.specs.Lines.{first_line, later_lines, text_of, letter_and_text, channel_at, parsed};

use super::digits::digit;
use cell::channel::Channel;
use std::error::Error;
use std::fmt;

// Why a line is no caption.
#[derive(Clone, Copy, PartialEq, Eq, Debug)]
pub enum BadLine {
    // it does not begin with a channel and a blank
    Channel,
    // nothing stands after its channel
    Text,
}

impl fmt::Display for BadLine {
    fn fmt<W: fmt::Write>(&self, f: &mut fmt::Formatter<W>) -> fmt::Result {
        match self {
            BadLine::Channel => write!(
                f,
                "no channel: a line is a channel, 0 to 7, a blank and a text"
            ),
            BadLine::Text => write!(f, "no text after the channel"),
        }
    }
}

impl Error for BadLine {}

// Where the first line of a script ends, unless the script ends before.
fn line_end(script: &[u8]) -> Option<usize>
    ensures { result ≡ position (λ byte. byte == 10) script.now }
{
    script.iter().position(|byte| *byte == b'\n')
}

// The first line of a script without its line end, and the lines after it.
#[tactic(auto, using(crate::proofs::Cutting::cuts))]
pub fn cut_line(script: &[u8]) -> (&[u8], &[u8])
    ensures first { result.0.now ≡ first_line script.now }
    ensures later { result.1.now ≡ later_lines script.now }
    ensures shorter { 0 < length script.now → length result.1.now < length script.now }
{
    match line_end(script) {
        Some(end) => (&script[..end], &script[end + 1..]),
        None => (script, &[]),
    }
}

// What a line is where it is a caption.
#[derive(Clone, Copy)]
pub struct Caption<'a> {
    pub channel: Channel,
    pub text: &'a [u8],
}

// The text of a line: what stands after its channel and the blank.
pub fn text_of(line: &[u8]) -> &[u8]
    ensures { result.now ≡ text_of line.now }
{
    match line {
        [_, _, text @ ..] => text,
        _ => &[],
    }
}

// The letter that a line begins with, and what stands after it and a blank.
fn letter_and_text(line: &[u8]) -> Option<(u8, &[u8])>
    ensures { MatchOption result (letter_and_text line.now ≡ None) (λ p. letter_and_text line.now ≡ Some (p.0, p.1.now)) }
{
    match line {
        [letter] | [letter, b' ', ..] => Some((*letter, text_of(line))),
        _ => None,
    }
}

// The channel that a letter stands for.
fn channel_at(letter: u8) -> Option<Channel>
    ensures { MatchOption result (channel_at letter ≡ None) (λ c. channel_at letter ≡ Some c.number) }
{
    Channel::try_from(digit(letter)?).ok()
}

// The caption that a line is, or why it is none.
#[tactic(auto, using(crate::proofs::Captions::in_turn))]
pub fn caption_of(line: &[u8]) -> Result<Caption<'_>, BadLine>
    ensures { MatchResult result (λ c. parsed line.now ≡ Ok (c.channel.number, c.text.now)) (λ e. parsed line.now ≡ Err e) }
{
    let (letter, text) = letter_and_text(line).ok_or(BadLine::Channel)?;
    let channel = channel_at(letter).ok_or(BadLine::Channel)?;
    if text.is_empty() {
        return Err(BadLine::Text);
    }
    Ok(Caption { channel, text })
}
