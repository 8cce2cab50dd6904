// What a channel holds, for people to read.
#![tactic(auto)]

ghost use Rattle.std.specs.Prelude.{◌≡◌, ◌<◌, ◌++◌, IfOk, OnOk, string_bytes};
ghost use Rattle.std.specs.Option.{option_to_list};
ghost use Rattle.inserter.specs.Meaning.{at_place, held_on};
ghost use Rattle.listing.specs.Shown.{digit, hex_digits, hex_of, letter, text_of};

use inserter::interface::Inserter;
use std::alloc::{AllocError, Global};

// The byte at a place of a channel, if one is there, at the end of the list.
fn push_at<I: Inserter>(
    bytes: &mut Vec<u8>,
    inserter: &I,
    channel: u8,
    place: u32,
) -> Result<(), AllocError>
    ensures { OnOk result (bytes.new.items ≡ bytes.old.items ++ option_to_list (at_place (held_on (I.meaning inserter.now) channel) place)) }
{
    if let Some(byte) = inserter.byte_at(channel, place) {
        bytes.push(byte)?;
    }
    Ok(())
}

// The bytes that a channel holds, in order. They are pushed one by one: collected from a `filter_map` over the places they take
// several times as long.
#[tactic(auto, using(std::proofs::lemmas::List::take_more, crate::proofs::Spelling::byte_there))]
pub fn held<I: Inserter>(heap: Global, inserter: &I, channel: u8) -> Result<Vec<u8>, AllocError>
    ensures { IfOk result (λ v. v.items ≡ held_on (I.meaning inserter.now) channel) }
{
    let mut bytes = Vec::new(heap);
    for place in 0..inserter.length(channel) {
        push_at(&mut bytes, inserter, channel, place)?;
    }
    Ok(bytes)
}

// A hexadecimal digit, in capitals.
fn digit(n: u8) -> char
    requires { n < 16 }
    ensures is { result ≡ digit n }
    ensures ascii { result < 128 }
{
    if n < 10 {
        (b'0' + n) as char
    } else {
        (b'A' + (n - 10)) as char
    }
}

// Two hexadecimal digits at the end of a text. They are pushed, since a `write!` of each byte takes many times as long.
fn push_hex(shown: &mut String, byte: u8) -> Result<(), AllocError>
    ensures { OnOk result (string_bytes shown.new ≡ string_bytes shown.old ++ hex_digits byte) }
{
    shown.push(digit(byte / 16))?;
    shown.push(digit(byte % 16))?;
    Ok(())
}

// Bytes in hexadecimal, two digits each, without blanks.
#[tactic(auto, using(std::proofs::lemmas::List::take_more, std::proofs::lemmas::List::flat_map_more))]
pub fn hex(heap: Global, bytes: &[u8]) -> Result<String, AllocError>
    ensures { IfOk result (λ s. string_bytes s ≡ hex_of bytes.now) }
{
    let mut shown = String::new(heap);
    for byte in bytes {
        push_hex(&mut shown, *byte)?;
    }
    Ok(shown)
}

// A byte as a character: itself where ASCII can print it, and otherwise a point.
fn letter(byte: u8) -> char
    ensures { result ≡ letter byte }
{
    match byte {
        b' '..=b'~' => char::from(byte),
        _ => '.',
    }
}

// Bytes as text.
pub fn text(heap: Global, bytes: &[u8]) -> Result<String, AllocError>
    ensures { IfOk result (λ s. string_bytes s ≡ text_of bytes.now) }
{
    bytes.iter().map(|byte| letter(*byte)).collect(heap)
}
