ghost use Rattle.std.specs.Prelude.{◌≡◌};
ghost use Rattle.std.specs.Iterator.{YieldsFirstBy, item_count};
ghost use Rattle.reading.specs.Pieces.{space, tokens, parts, vacant};
ghost use Rattle.reading.specs.Readers.{stretch_of, Proper, Gives, left, tokens_left, token_stretch};

use crate::reader::{Part, Parts, Token, Tokens};

impl<'a> Tokens<'a> {
    pub(crate) fn new(text: &'a [u8]) -> Tokens<'a>
        ensures { tokens_left result ≡ tokens text.now }
    {
        Tokens { rest: text, at: 0 }
    }
}

impl<'a> Iterator for Tokens<'a> {
    type Item = Token<'a>;

    ghost next_gives = { YieldsFirstBy token_stretch tokens_left };

    ghost remaining = { item_count tokens_left };

    fn next(&mut self) -> Option<Token<'a>> {
        let spaces = self.rest.iter().position(|byte| !is_space(*byte))?;
        let at = self.at + spaces;
        let (_, text) = self.rest.split_at(spaces);
        let n = text
            .iter()
            .position(|byte| is_space(*byte))
            .unwrap_or(text.len());
        let (bytes, rest) = text.split_at(n);
        *self = Tokens { rest, at: at + n };
        Some(Token { bytes, at })
    }
}

impl<'a> Parts<'a> {
    pub(crate) fn new(token: Token<'a>) -> Parts<'a>
        ensures { left result ≡ parts (token_stretch token.entry) }
    {
        Parts { rest: Some(token) }
    }

    // Whether each part that is left is empty, which is so where only slashes are left.
    pub(crate) fn vacant(&self) -> bool
        ensures { result ≡ vacant (left self.now) }
    {
        match self.rest {
            Some(token) => token.bytes.iter().all(|byte| *byte == b'/'),
            None => true,
        }
    }
}

impl<'a> Iterator for Parts<'a> {
    type Item = Part<'a>;

    ghost next_gives = { Gives };

    ghost remaining = { item_count left };

    fn next(&mut self) -> Option<Part<'a>> {
        let Token { bytes, at } = self.rest.take()?;
        let Some(n) = bytes.iter().position(|byte| *byte == b'/') else {
            return Some(Part::new(bytes, at));
        };
        self.rest = Some(Token {
            bytes: &bytes[n + 1..],
            at: at + n + 1,
        });
        Some(Part::new(&bytes[..n], at))
    }
}

impl<'a> Part<'a> {
    fn new(bytes: &'a [u8], at: usize) -> Part<'a>
        ensures stretch { stretch_of result ≡ record { from = at; bytes = bytes.now } }
        ensures proper { Proper result }
    {
        if bytes.is_empty() {
            Part::Empty { at }
        } else {
            Part::Filled { bytes, at }
        }
    }
}

// Whether a byte separates tokens. One that does not count for `is_ascii_whitespace` does here: the vertical tab.
fn is_space(byte: u8) -> bool
    ensures { result ≡ space byte }
{
    matches!(byte, b'\t'..=b'\r' | b' ')
}
