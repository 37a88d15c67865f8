// How the tokens of a text are spelled: a token by its number.
ghost use Rattle.std.specs.Prelude.{◌≡◌, get_or};
ghost use Rattle.text_rules.specs.Spelling.{spelled_in, same_in, main_in};

use syntax::source::Source;

// The word at i, 0 past the end.
pub fn word(s: &[u32], i: usize) -> usize
    ensures { result ≡ get_or s.now i 0 }
{
    if i < s.len() {
        return s[i] as usize;
    }
    0
}

// The bytes of token i, as far as they lie in the text.
pub fn spelling<'a>(source: &Source<'a>, i: usize) -> &'a [u8]
    ensures { result.now ≡ spelled_in source.now i }
{
    let text = source.text();
    let start = (source.place(i) as usize).min(text.len());
    let end = start
        .saturating_add(source.value(i) as usize)
        .min(text.len());
    &text[start..end]
}

// Whether the tokens i and j spell the same name.
pub fn same_name(source: &Source, i: usize, j: usize) -> bool
    ensures { result ≡ same_in source.now i j }
{
    lexer::same_bytes(spelling(source, i), spelling(source, j))
}

// Whether the token i spells main.
pub fn is_main(source: &Source, i: usize) -> bool
    ensures { result ≡ main_in source.now i }
{
    lexer::same_bytes(spelling(source, i), b"main")
}
