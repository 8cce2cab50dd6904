// What the program is asked to do, by its arguments.
#![tactic(auto)]

pub mod said;
mod words;

use std::error::Error;
use std::fmt;

pub const USAGE: &str = "captions: plays a script of captions to a caption inserter

usage: captions [lanes | pool] [--places N] [--patch TABLE] < SCRIPT

  lanes          each channel has its own places (this is so unless said)
  pool           all channels share the places
  --places N     each lane, or the pool, has N places, 1 to 65535 (4096 unless said)
  --patch TABLE  eight different digits, 0 to 7: channel 0 is the inserter's channel of the
                 first digit, channel 1 of the second, and so on
  --help         print this

A line of the script is CHANNEL TEXT: a channel, 0 to 7, a blank, and the bytes of a caption.
Empty lines are passed over. A line that is no caption, or whose channel has no room for it, is
reported with its number; nothing of it is sent, and the rest still runs. Where the places or the
table are refused, the refusal is printed with its number and nothing is sent at all.
";

// How the inserter keeps its bytes.
#[derive(Clone, Copy, PartialEq, Eq, Debug)]
pub enum Make {
    Lanes,
    Pool,
}

// An evening: the inserter to play to.
#[derive(Clone, Copy, PartialEq, Eq, Debug)]
pub struct Setup {
    pub make: Make,
    pub places: u32,
    // the entries of a patch table, which are not yet known to make one
    pub patch: Option<[u8; 8]>,
}

// What the arguments ask for. Help is an answer of its own, and not the lack of an evening, so this is no Option.
#[derive(Clone, Copy, PartialEq, Eq, Debug)]
pub enum Options {
    Help,
    Play(Setup),
}

// Why the arguments are not understood.
#[derive(Clone, Copy, PartialEq, Eq, Debug)]
pub enum Wrong {
    // a word that is no argument
    Word,
    // an argument that stands twice
    Twice,
    Places,
    Patch,
}

impl fmt::Display for Wrong {
    fn fmt<W: fmt::Write>(&self, f: &mut fmt::Formatter<W>) -> fmt::Result {
        match self {
            Wrong::Word => write!(f, "a word that is no argument"),
            Wrong::Twice => write!(f, "an argument that stands twice"),
            Wrong::Places => write!(f, "--places wants a number after it"),
            Wrong::Patch => write!(f, "--patch wants eight digits after it"),
        }
    }
}

impl Error for Wrong {}

#[cfg(test)]
mod tests {
    use super::said::Said;
    use super::*;

    fn parsed(words: &[&str]) -> Result<Options, Wrong> {
        let mut said = Said::nothing();
        for word in words {
            said = said.heard(word)?;
        }
        said.options()
    }

    fn play(make: Make, places: u32, patch: Option<[u8; 8]>) -> Result<Options, Wrong> {
        Ok(Options::Play(Setup {
            make,
            places,
            patch,
        }))
    }

    #[test]
    fn arguments(rt: HostRuntime) {
        assert_eq!(rt; parsed(&[]), play(Make::Lanes, 4096, None));
        assert_eq!(rt; parsed(&["--help"]), Ok(Options::Help));
        assert_eq!(rt; parsed(&["lanes"]), play(Make::Lanes, 4096, None));
        assert_eq!(rt;
            parsed(&["--places", "0", "pool"]),
            play(Make::Pool, 0, None)
        );
        assert_eq!(rt;
            parsed(&["--places", "4000000000"]),
            play(Make::Lanes, 65_536, None)
        );
        assert_eq!(rt;
            parsed(&["pool", "--patch", "10325476", "--places", "65535"]),
            play(Make::Pool, 65_535, Some([1, 0, 3, 2, 5, 4, 7, 6]))
        );
        assert_eq!(rt;
            parsed(&["--patch", "99999999"]),
            play(Make::Lanes, 4096, Some([9; 8]))
        );
        for bad in ["0123456", "012345678", "0123456a", ""] {
            assert_eq!(rt; parsed(&["--patch", bad]), Err(Wrong::Patch));
        }
        for bad in ["-1", "", "pool", "6 0", "+5"] {
            assert_eq!(rt; parsed(&["--places", bad]), Err(Wrong::Places));
        }
        assert_eq!(rt; parsed(&["--places"]), Err(Wrong::Places));
        assert_eq!(rt; parsed(&["pool", "--patch"]), Err(Wrong::Patch));
        assert_eq!(rt; parsed(&["pool", "lanes"]), Err(Wrong::Twice));
        assert_eq!(rt; parsed(&["pool", "--help", "?"]), Ok(Options::Help));
        assert_eq!(rt;
            parsed(&["--places", "1", "--places", "1"]),
            Err(Wrong::Twice)
        );
        assert_eq!(rt;
            parsed(&["--places", "00000000000000000065535"]),
            play(Make::Lanes, 65_535, None)
        );
        assert_eq!(rt; parsed(&["evening.txt"]), Err(Wrong::Word));
    }
}
