// What is wrong with a line, and its words.
use crate::keywords::Keyword;
use std::fmt;

#[derive(Clone, Copy, PartialEq, Eq, Debug)]
pub enum Trouble {
    // The line's first word is no call.
    Call,
    // A call comes while there is no volume.
    Volume,
    // A volume of more sectors than the program holds.
    Sectors,
    // A word that is no number.
    Number,
    // A keyword with no number after it, one that this call does not take, a second one of its name, or one of no known name.
    Value(Keyword),
    KeywordHere(Keyword),
    KeywordTwice(Keyword),
    Keyword,
    // A word that is no BLOCK=DATA.
    Block,
    // Data that is neither text nor hexadecimal, with no closing quote, with other bytes, or over 512 bytes.
    Data,
    Quote,
    Text,
    Hex,
    Long,
    // A word that follows the closing quote with no space between.
    Space,
    // More blocks than the program takes in a line.
    Many,
    // Words after the last one of a call.
    More,
    // Numbers, or blocks, that are not there.
    FewNumbers,
    FewBlocks,
    // An end that ends no backlog; in a backlog a line of another call, a plug of its own, and more commits than are held.
    End,
    BacklogLine,
    BacklogStores,
    Commits,
}

impl Trouble {
    // The trouble at this place of the line.
    pub fn at(self, at: usize) -> Fault {
        Fault { at, trouble: self }
    }
}

impl fmt::Display for Trouble {
    fn fmt<W: fmt::Write>(&self, f: &mut fmt::Formatter<W>) -> fmt::Result {
        f.write_str(match self {
            Trouble::Call =>
                "expected format, write, drop, read, park, recover, show, sectors or backlog",
            Trouble::Volume => "expected a format that is accepted first: there is no volume",
            Trouble::Sectors => "expected a volume of at most 4096 sectors: no more are held",
            Trouble::Number => "expected a number up to 4294967295",
            Trouble::Value(keyword) => {
                return write!(f, "expected {keyword} and a number up to 4294967295");
            }
            Trouble::KeywordHere(Keyword::Stores) =>
                "expected no stores=, since this call makes none",
            Trouble::KeywordHere(keyword) => {
                return write!(
                    f,
                    "expected no {keyword}, since only format and recover take it"
                );
            }
            Trouble::KeywordTwice(keyword) => return write!(f, "expected {keyword} once"),
            Trouble::Keyword => "expected track=, tracks=, switch= or stores=",
            Trouble::Block => "expected BLOCK=DATA, the block a number up to 4294967295",
            Trouble::Data => "expected data: text in quotes, or x and hexadecimal digits",
            Trouble::Quote => "expected a quote that closes the text",
            Trouble::Text => "expected bytes 32 to 126 in the text",
            Trouble::Hex => "expected an even number of hexadecimal digits after x",
            Trouble::Long => "expected data of at most 512 bytes",
            Trouble::Space => "expected a space after the closing quote",
            Trouble::Many => "expected at most 128 blocks in a line",
            Trouble::More => "expected the end of the line",
            Trouble::FewNumbers => "expected another number",
            Trouble::FewBlocks => "expected a block after the head",
            Trouble::End => "expected a line backlog before end",
            Trouble::BacklogLine => "expected write, drop or end in a backlog",
            Trouble::BacklogStores =>
                "expected no stores=, which stands after backlog for all its commits",
            Trouble::Commits => "expected at most 40 commits in a backlog",
        })
    }
}

// A trouble, and the place in the line where it is.
#[derive(Clone, Copy, PartialEq, Eq, Debug)]
pub struct Fault {
    pub at: usize,
    pub trouble: Trouble,
}
