// A text with its tokens.
ghost use Rattle.std.specs.Prelude.{◌≡◌, length, get_or};
ghost use Rattle.syntax.specs.TokenKinds.{kind_number, kind_numbers};
ghost use Rattle.syntax.specs.Source.{Source as Told, source};

use crate::token::TokenKind;
use std::marker::Model;

// A text with the kinds, places and values of its tokens: a token is given by its number, and the value of a name is its size.
// Three slices and not one of a struct: the definitions have a list of each.
#[derive(Drop)]
pub struct Source<'a> {
    text: &'a [u8],
    kinds: &'a [TokenKind],
    places: &'a [u32],
    values: &'a [u32],
}

impl<'a> Model for Source<'a> {
    ghost Value = { Told };

    ghost view = { λ s. source s.text.now (kind_numbers s.kinds.now) s.places.now s.values.now };
}

impl<'a> Source<'a> {
    pub fn new(
        text: &'a [u8],
        kinds: &'a [TokenKind],
        places: &'a [u32],
        values: &'a [u32],
    ) -> Source<'a>
        ensures { result ≡ source text.now (kind_numbers kinds.now) places.now values.now }
    {
        Source {
            text,
            kinds,
            places,
            values,
        }
    }

    // The bytes of the text.
    pub fn text(&self) -> &'a [u8]
        ensures { result.now ≡ self.now.text }
    {
        self.text
    }

    // How many tokens there are.
    pub fn len(&self) -> usize
        ensures { result ≡ length self.now.kinds }
    {
        self.kinds.len()
    }

    // The kind of token i; past the last, the end.
    pub fn kind(&self, i: usize) -> TokenKind
        ensures { kind_number result ≡ get_or self.now.kinds i 0 }
    {
        if i < self.kinds.len() {
            return self.kinds[i];
        }
        TokenKind::End
    }

    // The place of token i; past the last, 0.
    pub fn place(&self, i: usize) -> u32
        ensures { result ≡ get_or self.now.places i 0 }
    {
        if i < self.places.len() {
            return self.places[i];
        }
        0
    }

    // The value of token i; past the last, 0.
    pub fn value(&self, i: usize) -> u32
        ensures { result ≡ get_or self.now.values i 0 }
    {
        if i < self.values.len() {
            return self.values[i];
        }
        0
    }
}
