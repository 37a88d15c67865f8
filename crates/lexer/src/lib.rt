// Bytes to tokens, by longest match.
#![tactic(auto)]

ghost use Rattle.std.specs.Prelude.{◌≡◌, true, [], ◌∷◌, min, ◌+◌, ◌-◌, ◌*◌, ◌≤◌, ◌<◌, length, drop, get_or, leb};
ghost use Rattle.syntax.specs.Token.{k_name};
ghost use Rattle.syntax.specs.TokenKinds.{kind_number, kind_numbers};
ghost use Rattle.lexer.specs.Lex.{is_digit, is_letter, is_word, same, words, kind_in, longest, decimal, digits_of, front};
ghost use Rattle.lexer.specs.Parts.{class_number, class_of, MarkIs, span, limit, front_of, held_front, large_as, Lexes};

use syntax::refusal::{Reason, Refusal};
use syntax::token::TokenKind;

// The bytes of the longest text.
const LONGEST: usize = 2048;

// The first value that no number may have.
const LIMIT: u32 = 2147483648;

// What a byte may be part of.
#[derive(Clone, Copy)]
enum Class {
    Blank,
    Underscore,
    Letter,
    Digit,
    Other,
}

// What stands at a place of the text: a blank byte, a byte that begins no token, or a token.
// An enum of its own: a blank byte and one that begins no token are both no token.
#[derive(Drop)]
enum Piece {
    Blank,
    Nothing,
    Token {
        kind: TokenKind,
        size: usize,
        value: u32,
    },
}

impl Class {
    // The class of a byte.
    fn of(b: u8) -> Class
        ensures { class_number result ≡ class_of b }
    {
        match b {
            b' ' | b'\n' | b'\t' | b'\r' => Class::Blank,
            b'_' => Class::Underscore,
            b'A'..=b'Z' | b'a'..=b'z' => Class::Letter,
            b'0'..=b'9' => Class::Digit,
            _ => Class::Other,
        }
    }

    // Whether a name may go on with such a byte.
    fn is_word(self) -> bool
        ensures { result ≡ leb 2 (class_number self) }
    {
        matches!(self, Class::Underscore | Class::Letter | Class::Digit)
    }
}

// The kind of a single mark.
#[tactic(auto, unfolding(crate::specs::Lex::kind_in, crate::specs::Lex::same))]
fn single(b: u8) -> Option<TokenKind>
    ensures { MarkIs (b ∷ []) result }
{
    match b {
        b'(' => Some(TokenKind::Open),
        b')' => Some(TokenKind::Close),
        b'{' => Some(TokenKind::Lbrace),
        b'}' => Some(TokenKind::Rbrace),
        b';' => Some(TokenKind::Semi),
        b',' => Some(TokenKind::Comma),
        b'=' => Some(TokenKind::Assign),
        b'<' => Some(TokenKind::Less),
        b'>' => Some(TokenKind::Greater),
        b'+' => Some(TokenKind::Plus),
        b'-' => Some(TokenKind::Minus),
        b'*' => Some(TokenKind::Times),
        _ => None,
    }
}

// The kind of a mark of two bytes.
#[tactic(auto, unfolding(crate::specs::Lex::kind_in, crate::specs::Lex::same))]
fn pair(b: u8, c: u8) -> Option<TokenKind>
    ensures { MarkIs (b ∷ c ∷ []) result }
{
    match (b, c) {
        (b'<', b'=') => Some(TokenKind::LessEq),
        (b'>', b'=') => Some(TokenKind::GreaterEq),
        (b'=', b'=') => Some(TokenKind::Equal),
        (b'!', b'=') => Some(TokenKind::Unequal),
        (b'&', b'&') => Some(TokenKind::And),
        (b'|', b'|') => Some(TokenKind::Or),
        (b'.', b'.') => Some(TokenKind::DotDot),
        _ => None,
    }
}

// Whether two names, or a name and a word, have the same bytes.
pub fn same_bytes(a: &[u8], b: &[u8]) -> bool
    ensures { result ≡ same a.now b.now }
{
    a == b
}

// The kind of a word: a reserved one, or a name.
#[tactic(auto, unfolding(crate::specs::Lex::kind_in))]
fn word_kind(word: &[u8]) -> TokenKind
    ensures { kind_number result ≡ kind_in words k_name word.now }
{
    if same_bytes(word, b"int") {
        TokenKind::Int
    } else if same_bytes(word, b"free") {
        TokenKind::Free
    } else if same_bytes(word, b"if") {
        TokenKind::If
    } else if same_bytes(word, b"else") {
        TokenKind::Else
    } else if same_bytes(word, b"while") {
        TokenKind::While
    } else if same_bytes(word, b"return") {
        TokenKind::Return
    } else if same_bytes(word, b"fail") {
        TokenKind::Fail
    } else if same_bytes(word, b"true") {
        TokenKind::True
    } else if same_bytes(word, b"false") {
        TokenKind::False
    } else {
        TokenKind::Name
    }
}

// A value with one more digit, up to the limit.
fn with_digit(value: u32, digit: u8) -> u32
    requires { (value ≤ limit) × (is_digit digit ≡ true) }
    ensures { result ≡ min (10 * value + (digit - 48)) limit }
{
    value
        .saturating_mul(10)
        .saturating_add(u32::from(digit - b'0'))
        .min(LIMIT)
}

// A value with one more byte of a number, up to the limit: an underscore leaves it as it is.
fn with_byte(value: u32, b: u8) -> u32
    requires { value ≤ limit }
    ensures { result ≡ min (decimal value (digits_of (b ∷ []))) limit }
{
    match Class::of(b) {
        Class::Digit => with_digit(value, b),
        _ => value,
    }
}

// The decimal value of a number's digits, its underscores dropped, up to the limit.
fn number_value(number: &[u8]) -> u32
    ensures { result ≡ min (decimal 0 (digits_of number.now)) limit }
{
    let mut value = 0;
    for &b in number {
        value = with_byte(value, b);
    }
    value
}

// The end of the bytes from `at` on that a name may go on with.
fn word_end(text: &[u8], at: usize) -> usize
    requires { at ≤ length text.now }
    ensures { (result ≡ at + span is_word (drop at text.now)) × (result ≤ length text.now) }
{
    for end in at..text.len() {
        if !Class::of(text[end]).is_word() {
            return end;
        }
    }
    text.len()
}

// The end of the number that begins at `at`: the place after its last digit. Underscores belong to it only if a digit follows.
fn number_end(text: &[u8], at: usize) -> usize
    requires { (at < length text.now) × (is_digit (get_or text.now at 0) ≡ true) }
    ensures { (result ≡ at + longest (drop at text.now)) × (result ≤ length text.now) }
{
    let mut end = at + 1;
    for i in at + 1..text.len() {
        match Class::of(text[i]) {
            Class::Digit => end = i + 1,
            Class::Underscore => {}
            _ => return end,
        }
    }
    end
}

// The name or reserved word at `at`.
fn name_at(text: &[u8], at: usize) -> Piece
    requires { (at < length text.now) × (length text.now ≤ 2048) × (is_letter (get_or text.now at 0) ≡ true) }
    ensures { front_of result ≡ held_front (front (drop at text.now)) }
{
    let end = word_end(text, at + 1);
    let size = end - at;
    Piece::Token {
        kind: word_kind(&text[at..end]),
        size,
        value: size as u32,
    }
}

// The number at `at`.
fn number_at(text: &[u8], at: usize) -> Piece
    requires { (at < length text.now) × (is_digit (get_or text.now at 0) ≡ true) }
    ensures { front_of result ≡ held_front (front (drop at text.now)) }
{
    let end = number_end(text, at);
    Piece::Token {
        kind: TokenKind::Number,
        size: end - at,
        value: number_value(&text[at..end]),
    }
}

// The mark at `at`, or nothing.
fn mark_at(text: &[u8], at: usize) -> Piece
    requires { (at < length text.now) × (class_of (get_or text.now at 0) ≤ 2) × (¬ (class_of (get_or text.now at 0) ≡ 1)) }
    ensures { front_of result ≡ held_front (front (drop at text.now)) }
{
    let b = text[at];
    let next = at + 1;
    if next < text.len() {
        if let Some(kind) = pair(b, text[next]) {
            return Piece::Token {
                kind,
                size: 2,
                value: 2,
            };
        }
    }
    match single(b) {
        Some(kind) => Piece::Token {
            kind,
            size: 1,
            value: 1,
        },
        None => Piece::Nothing,
    }
}

// What stands at `at`.
fn piece_at(text: &[u8], at: usize) -> Piece
    requires { (at < length text.now) × (length text.now ≤ 2048) }
    ensures { front_of result ≡ held_front (front (drop at text.now)) }
{
    match Class::of(text[at]) {
        Class::Blank => Piece::Blank,
        Class::Letter => name_at(text, at),
        Class::Digit => number_at(text, at),
        Class::Underscore | Class::Other => mark_at(text, at),
    }
}

// Whether a token is too large: a name over 16 bytes, or a number above 2,147,483,647.
fn is_large(kind: TokenKind, value: u32) -> bool
    ensures { result ≡ large_as (kind_number kind) value }
{
    match kind {
        TokenKind::Name => value > 16,
        TokenKind::Number => value >= LIMIT,
        _ => false,
    }
}

// The tokens of a text: how many there are, the end among them.
// Three slices and not one of a struct: `Source` reads each apart.
pub fn lex(
    text: &[u8],
    kinds: &mut [TokenKind],
    places: &mut [u32],
    values: &mut [u32],
) -> Result<usize, Refusal>
    requires { (2049 ≤ length kinds.old) × (2049 ≤ length places.old) × (2049 ≤ length values.old) }
    ensures { Lexes text.now (kind_numbers kinds.old) places.old values.old (kind_numbers kinds.new) places.new values.new result }
{
    if text.len() > LONGEST {
        return Err(Refusal {
            reason: Reason::TooLong,
            place: LONGEST,
        });
    }
    let mut at = 0;
    let mut n = 0;
    let mut large = None;
    // A loop of its own: the step is a piece's size.
    while at < text.len() {
        match piece_at(text, at) {
            Piece::Blank => at += 1,
            Piece::Nothing => {
                return Err(Refusal {
                    reason: Reason::NoToken,
                    place: at,
                });
            }
            Piece::Token { kind, size, value } => {
                large = large.or(is_large(kind, value).then_some(at));
                kinds[n] = kind;
                places[n] = at as u32;
                values[n] = value;
                n += 1;
                at += size;
            }
        }
    }
    kinds[n] = TokenKind::End;
    places[n] = at as u32;
    values[n] = 0;
    if let Some(place) = large {
        return Err(Refusal {
            reason: Reason::TooLarge,
            place,
        });
    }
    Ok(n + 1)
}
