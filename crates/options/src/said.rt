// What the words of the arguments say, one after the other.
ghost use Rattle.std.specs.Prelude.{◌≡◌, IsSome, MatchResult};
ghost use Rattle.options.specs.declared.Wrong.TheVariants.{Twice};
ghost use Rattle.options.specs.Arguments.{nothing_said, argument, heard, options_of};

use super::words::{Wants, Word, number_of, word_of};
use super::{Make, Options, Setup, Wrong};
use script::digits::eight_digits;

// How many places a lane or a pool has unless the arguments say otherwise.
const PLACES_UNLESS_SAID: u32 = 4096;

// What was said so far.
#[derive(Clone, Copy, Default)]
pub struct Said {
    make: Option<Make>,
    places: Option<u32>,
    patch: Option<[u8; 8]>,
    help: bool,
    // what the word before wants
    wants: Option<Wants>,
}

// What is said once is kept, and may not be said again.
fn once<T: Drop>(before: Option<T>, now: T) -> Result<Option<T>, Wrong>
    ensures { MatchResult result (λ kept. (before ≡ None) × (kept ≡ Some now)) (λ wrong. IsSome before × (wrong ≡ Twice)) }
{
    match before {
        None => Ok(Some(now)),
        Some(_) => Err(Wrong::Twice),
    }
}

impl Said {
    pub fn nothing() -> Said
        ensures { result ≡ nothing_said }
    {
        Said::default()
    }

    fn argument(self, word: Word) -> Result<Said, Wrong>
        ensures { result ≡ argument self word }
    {
        match word {
            Word::Make(make) => Ok(Said {
                make: once(self.make, make)?,
                ..self
            }),
            Word::Wants(wants) => Ok(Said {
                wants: Some(wants),
                ..self
            }),
            Word::Help => Ok(Said { help: true, ..self }),
        }
    }

    // One word more. Once help was asked for, the rest does not matter.
    pub fn heard(self, text: &str) -> Result<Said, Wrong>
        ensures { result ≡ heard self text.now }
    {
        if self.help {
            return Ok(self);
        }
        match self.wants {
            None => self.argument(word_of(text).ok_or(Wrong::Word)?),
            Some(Wants::Places) => {
                let places = number_of(text.as_bytes()).ok_or(Wrong::Places)?;
                Ok(Said {
                    places: once(self.places, places)?,
                    wants: None,
                    ..self
                })
            }
            Some(Wants::Patch) => {
                let patch = eight_digits(text.as_bytes()).ok_or(Wrong::Patch)?;
                Ok(Said {
                    patch: once(self.patch, patch)?,
                    wants: None,
                    ..self
                })
            }
        }
    }

    // What all the words together ask for.
    pub fn options(self) -> Result<Options, Wrong>
        ensures { result ≡ options_of self }
    {
        if self.help {
            return Ok(Options::Help);
        }
        match self.wants {
            Some(Wants::Places) => Err(Wrong::Places),
            Some(Wants::Patch) => Err(Wrong::Patch),
            None => Ok(Options::Play(Setup {
                make: self.make.unwrap_or(Make::Lanes),
                places: self.places.unwrap_or(PLACES_UNLESS_SAID),
                patch: self.patch,
            })),
        }
    }
}
