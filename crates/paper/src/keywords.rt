// The words NAME=NUMBER of a line, which stand anywhere after the call's name: the plug, and the settings of a drive.
use crate::tokens;
use std::fmt;

#[derive(Clone, Copy, PartialEq, Eq, Debug)]
pub enum Keyword {
    // The plug: the stores that the call may make.
    Stores,
    // Sectors a track, tracks, and the head switch.
    Track,
    Tracks,
    Switch,
}

impl fmt::Display for Keyword {
    fn fmt<W: fmt::Write>(&self, f: &mut fmt::Formatter<W>) -> fmt::Result {
        f.write_str(match self {
            Keyword::Stores => "stores=",
            Keyword::Track => "track=",
            Keyword::Tracks => "tracks=",
            Keyword::Switch => "switch=",
        })
    }
}

// Where the number of a keyword begins: after the first =.
fn value_start(word: &[u8]) -> usize {
    tokens::after(word, tokens::find(word, 0, b'='))
}

// The keyword that a word begins with.
pub fn keyword_of(word: &[u8]) -> Option<Keyword> {
    // By its first bytes: a word may be as long as a line.
    if word.starts_with(b"stores=") {
        return Some(Keyword::Stores);
    }
    if word.starts_with(b"track=") {
        return Some(Keyword::Track);
    }
    if word.starts_with(b"tracks=") {
        return Some(Keyword::Tracks);
    }
    if word.starts_with(b"switch=") {
        return Some(Keyword::Switch);
    }
    None
}

// The number of a keyword.
pub fn value_in(word: &[u8]) -> Option<u32> {
    tokens::number_in(tokens::part(word, value_start(word), word.len()))
}

// The numbers given.
#[derive(Clone, Copy, Default)]
pub struct Keywords {
    pub stores: Option<u32>,
    pub track: Option<u32>,
    pub tracks: Option<u32>,
    pub switch: Option<u32>,
}

impl Keywords {
    pub fn value(self, keyword: Keyword) -> Option<u32> {
        match keyword {
            Keyword::Stores => self.stores,
            Keyword::Track => self.track,
            Keyword::Tracks => self.tracks,
            Keyword::Switch => self.switch,
        }
    }

    pub fn with(self, keyword: Keyword, value: u32) -> Keywords {
        let given = Some(value);
        match keyword {
            Keyword::Stores => Keywords {
                stores: given,
                ..self
            },
            Keyword::Track => Keywords {
                track: given,
                ..self
            },
            Keyword::Tracks => Keywords {
                tracks: given,
                ..self
            },
            Keyword::Switch => Keywords {
                switch: given,
                ..self
            },
        }
    }
}
