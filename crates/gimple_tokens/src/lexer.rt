// The tokens of a text, taken as long as possible: `specs/Tokens.antt` says which they are, and this finds the first.
ghost use Rattle.std.specs.Prelude.{◌≡◌, ◌+◌, ◌<◌, ◌≤◌, ◌^◌, ◌∷◌, ◌*◌, ◌-◌, ◌&&◌, ◌==◌, nat_lt, length, drop, if◌then◌else◌};
ghost use Rattle.std.specs.List.{prefix_len};
ghost use Rattle.gimple_tokens.specs.Tokens.{Lexeme, Piece, Bad, Name, Word, lexeme_of, placed, followed, is_space, is_letter, is_digit, is_word_byte, is_bad, is_comment_byte, is_slash_first, word_of, value_of, small, suffix_at, suffix_len, sign_at, number_at, word_at, piece_at, tokens_from, one, IsNamed};
ghost use Rattle.gimple_tokens.specs.declared.token.TextKind.TheVariants.{Syntax};
ghost use Rattle.gimple_tokens.specs.Found.{found, belongs};
ghost use Rattle.gimple_tokens.specs.Reading.{SkipsPastBrace};

use crate::token::{Keyword, Mark, Suffix, TextKind, Token};

/// What stands at the front of a text. The number is that of the bytes after the first that belong to it.
enum Found<'a> {
    Gap(usize),
    Whole(Token<'a>, usize),
    Fault(TextKind),
}

fn is_space(byte: u8) -> bool
    ensures { result ≡ is_space byte }
{
    matches!(byte, b' ' | b'\n' | b'\t' | b'\r')
}

fn is_letter(byte: u8) -> bool
    ensures { result ≡ is_letter byte }
{
    matches!(byte, b'a'..=b'z' | b'A'..=b'Z' | b'_')
}

fn is_digit(byte: u8) -> bool
    ensures { result ≡ is_digit byte }
{
    matches!(byte, b'0'..=b'9')
}

fn is_word_byte(byte: u8) -> bool
    ensures { result ≡ is_word_byte byte }
{
    is_letter(byte) || is_digit(byte)
}

fn is_bad(byte: u8) -> bool
    ensures { result ≡ is_bad byte }
{
    byte >= 0x7f || (byte < 0x20 && !is_space(byte))
}

fn word_bytes(bytes: &[u8]) -> usize
    ensures value { result ≡ prefix_len is_word_byte bytes.now }
    ensures within { result ≤ length bytes.now }
{
    bytes.iter().take_while(|b| is_word_byte(**b)).count()
}

fn digits(bytes: &[u8]) -> usize
    ensures value { result ≡ prefix_len is_digit bytes.now }
    ensures within { result ≤ length bytes.now }
{
    bytes.iter().take_while(|b| is_digit(**b)).count()
}

fn comment_bytes(bytes: &[u8]) -> usize
    ensures value { result ≡ prefix_len is_comment_byte bytes.now }
    ensures within { result ≤ length bytes.now }
{
    bytes
        .iter()
        .take_while(|b| **b != b'\n' && !is_bad(**b))
        .count()
}

// A word that is no keyword.
fn name_of(word: &[u8]) -> Token<'_>
    ensures { lexeme_of result ≡ (if nat_lt 255 (length word.now) then Bad Syntax else Name word.now) }
{
    if word.len() > 255 {
        Token::Bad(TextKind::Syntax)
    } else {
        Token::Name(word)
    }
}

// The keyword, or else the word as a name.
fn keyword_if<'a>(is_keyword: bool, keyword: Keyword, word: &'a [u8]) -> Token<'a>
    ensures { lexeme_of result ≡ (if is_keyword then Word keyword else if nat_lt 255 (length word.now) then Bad Syntax else Name word.now) }
{
    if is_keyword {
        Token::Word(keyword)
    } else {
        name_of(word)
    }
}

// The word of this first byte and the rest: most words differ from all keywords in the first byte.
#[tactic(auto, unfolding(crate::specs::Tokens::word_of))]
fn word_of<'a>(first: u8, word: &'a [u8], rest: &'a [u8]) -> Token<'a>
    requires { word.now ≡ first ∷ rest.now }
    ensures { lexeme_of result ≡ word_of word.now }
{
    match first {
        b'c' => if rest == b"har".as_slice() {
            Token::Word(Keyword::Char)
        } else {
            keyword_if(rest == b"ase".as_slice(), Keyword::Case, word)
        }
        b'd' => keyword_if(rest == b"efault".as_slice(), Keyword::Default, word),
        b'e' => if rest == b"xtern".as_slice() {
            Token::Word(Keyword::Extern)
        } else {
            keyword_if(rest == b"lse".as_slice(), Keyword::Else, word)
        }
        b'g' => keyword_if(rest == b"oto".as_slice(), Keyword::Goto, word),
        b'i' => if rest == b"nt".as_slice() {
            Token::Word(Keyword::Int)
        } else {
            keyword_if(rest == b"f".as_slice(), Keyword::If, word)
        }
        b'l' => keyword_if(rest == b"ong".as_slice(), Keyword::Long, word),
        b'r' => keyword_if(rest == b"eturn".as_slice(), Keyword::Return, word),
        b's' => if rest == b"truct".as_slice() {
            Token::Word(Keyword::Struct)
        } else if rest == b"tatic".as_slice() {
            Token::Word(Keyword::Static)
        } else {
            keyword_if(rest == b"witch".as_slice(), Keyword::Switch, word)
        }
        b'u' => keyword_if(rest == b"nsigned".as_slice(), Keyword::Unsigned, word),
        b'v' => keyword_if(rest == b"oid".as_slice(), Keyword::Void, word),
        b'w' => keyword_if(rest == b"eak".as_slice(), Keyword::Weak, word),
        _ => name_of(word),
    }
}

/// The value with one more digit.
fn with_digit(value: u64, digit: u8) -> Option<u64>
    ensures { result ≡ small (value * 10 + (digit - 48)) }
{
    value
        .checked_mul(10)?
        .checked_add(u64::from(digit.saturating_sub(b'0')))
}

/// The value of a decimal, where it is one of 64 bits.
fn value_of(digits: &[u8]) -> Option<u64>
    ensures { result ≡ small (value_of digits.now) }
{
    let mut value: u64 = 0;
    for digit in digits {
        value = with_digit(value, *digit)?;
    }
    Some(value)
}

fn suffix_at(bytes: &[u8]) -> Suffix
    ensures { result ≡ suffix_at bytes.now }
{
    match bytes {
        [b'u', b'l', ..] => Suffix::Ul,
        [b'u', ..] => Suffix::U,
        [b'l', ..] => Suffix::L,
        _ => Suffix::Plain,
    }
}

fn sign(mark: Mark) -> Found<'static>
    ensures value { found result ≡ one mark }
    ensures within { belongs result ≡ 0 }
{
    Found::Whole(Token::Sign(mark), 0)
}

#[tactic(auto, unfolding(crate::specs::Tokens::sign_at))]
fn sign_at(first: u8, bytes: &[u8]) -> Found<'static>
    ensures value { found result ≡ sign_at first bytes.now }
    ensures within { belongs result ≤ length bytes.now }
{
    match (first, bytes) {
        (b';', _) => sign(Mark::Semicolon),
        (b':', _) => sign(Mark::Colon),
        (b',', _) => sign(Mark::Comma),
        (b'.', _) => sign(Mark::Dot),
        (b'-', _) => sign(Mark::Minus),
        (b'+', _) => sign(Mark::Plus),
        (b'*', _) => sign(Mark::Asterisk),
        (b'/', _) => sign(Mark::Slash),
        (b'%', _) => sign(Mark::Percent),
        (b'&', _) => sign(Mark::Ampersand),
        (b'|', _) => sign(Mark::VerticalBar),
        (b'^', _) => sign(Mark::Caret),
        (b'~', _) => sign(Mark::Tilde),
        (b'=', [b'=', ..]) => Found::Whole(Token::Sign(Mark::EqualsEquals), 1),
        (b'=', _) => sign(Mark::Equals),
        (b'!', [b'=', ..]) => Found::Whole(Token::Sign(Mark::NotEquals), 1),
        (b'<', [b'=', ..]) => Found::Whole(Token::Sign(Mark::LessEquals), 1),
        (b'<', [b'<', ..]) => Found::Whole(Token::Sign(Mark::ShiftLeft), 1),
        (b'<', _) => sign(Mark::Less),
        (b'>', [b'=', ..]) => Found::Whole(Token::Sign(Mark::GreaterEquals), 1),
        (b'>', [b'>', ..]) => Found::Whole(Token::Sign(Mark::ShiftRight), 1),
        (b'>', _) => sign(Mark::Greater),
        (b'(', _) => sign(Mark::OpenRound),
        (b')', _) => sign(Mark::CloseRound),
        (b'[', _) => sign(Mark::OpenSquare),
        (b']', _) => sign(Mark::CloseSquare),
        (b'{', _) => sign(Mark::OpenCurly),
        (b'}', _) => sign(Mark::CloseCurly),
        _ => Found::Fault(TextKind::Syntax),
    }
}

#[tactic(auto, unfolding(crate::specs::Tokens::word_at))]
fn word_at<'a>(first: u8, text: &'a [u8], after: &'a [u8]) -> Found<'a>
    requires { text.now ≡ first ∷ after.now }
    ensures value { found result ≡ word_at first after.now }
    ensures within { belongs result ≤ length after.now }
{
    let len = word_bytes(after);
    Found::Whole(word_of(first, &text[..len + 1], &after[..len]), len)
}

fn is_led_by_zero(first: u8, more: usize) -> bool
    ensures { result ≡ (first == 48 && nat_lt 0 more) }
{
    first == b'0' && more > 0
}

#[tactic(auto, unfolding(crate::specs::Tokens::number_at))]
fn number_at<'a>(first: u8, text: &'a [u8], after: &'a [u8]) -> Found<'a>
    requires { text.now ≡ first ∷ after.now }
    ensures value { found result ≡ number_at first after.now }
    ensures within { belongs result ≤ length after.now }
{
    let len = digits(after);
    if is_led_by_zero(first, len) {
        return Found::Fault(TextKind::Literal);
    }
    let value = value_of(&text[..len + 1]);
    let suffix = suffix_at(bytes_from(after, len));
    Found::Whole(Token::Number(value, suffix), len + suffix_len(suffix))
}

fn suffix_len(suffix: Suffix) -> usize
    ensures { result ≡ suffix_len suffix }
{
    match suffix {
        Suffix::Plain => 0,
        Suffix::U | Suffix::L => 1,
        Suffix::Ul => 2,
    }
}

/// What stands at the front of a text that is not empty.
#[tactic(auto, unfolding(crate::specs::Tokens::piece_at))]
fn piece_at<'a>(first: u8, text: &'a [u8], after: &'a [u8]) -> Found<'a>
    requires { text.now ≡ first ∷ after.now }
    ensures value { found result ≡ piece_at first after.now }
    ensures within { belongs result ≤ length after.now }
{
    if is_space(first) {
        return Found::Gap(0);
    }
    if is_bad(first) {
        return Found::Fault(TextKind::Byte);
    }
    if is_letter(first) {
        return word_at(first, text, after);
    }
    if is_digit(first) {
        return number_at(first, text, after);
    }
    match (first, after) {
        (b'/', [b'/', ..]) => Found::Gap(comment_bytes(after)),
        _ => sign_at(first, after),
    }
}

/// A token, its line, and the bytes after it.
#[derive(Clone, Copy)]
pub struct Lexed<'a> {
    pub token: Token<'a>,
    pub line: u32,
    pub rest: &'a [u8],
}

fn bytes_from(bytes: &[u8], start: usize) -> &[u8]
    requires { start ≤ length bytes.now }
    ensures { result.now ≡ drop start bytes.now }
{
    bytes.split_at(start).1
}

fn line_after(byte: u8, line: u32) -> u32
    requires { line < 2 ^ 32 - 1 }
    ensures value { result ≡ (if byte == 10 then line + 1 else line) }
    ensures within { result ≤ line + 1 }
{
    if byte == b'\n' { line + 1 } else { line }
}

/// The first token of a text that begins in this line.
pub fn lex(text: &[u8], line: u32) -> Lexed<'_>
    requires { line + length text.now < 2 ^ 32 }
    ensures tokens { tokens_from line 0 text.now ≡ followed (placed (lexeme_of result.token) result.line) (tokens_from result.line 0 result.rest.now) }
    ensures within { result.line + length result.rest.now < 2 ^ 32 }
    ensures named { IsNamed (lexeme_of result.token) }
{
    let mut rest = text;
    let mut line = line;
    'pieces: while let Some((first, after)) = rest.split_first() {
        match piece_at(*first, rest, after) {
            Found::Gap(len) => {
                line = line_after(*first, line);
                rest = bytes_from(after, len);
            }
            Found::Whole(token, len) => {
                return Lexed {
                    token,
                    line,
                    rest: bytes_from(after, len),
                };
            }
            Found::Fault(kind) => {
                return Lexed {
                    token: Token::Bad(kind),
                    line,
                    rest: after,
                };
            }
        }
    }
    Lexed {
        token: Token::End,
        line,
        rest,
    }
}

/// Bytes of a text, and the line that they begin in.
#[derive(Clone, Copy)]
pub(crate) struct Remainder<'a> {
    pub(crate) line: u32,
    pub(crate) bytes: &'a [u8],
}

// How many of the bytes after the first belong to a comment that it begins.
fn comment_at(first: u8, after: &[u8]) -> usize
    ensures value { result ≡ (if first == 47 && is_slash_first after.now then prefix_len is_comment_byte after.now else 0) }
    ensures within { result ≤ length after.now }
{
    match (first, after) {
        (b'/', [b'/', ..]) => comment_bytes(after),
        _ => 0,
    }
}

/// The bytes after the first brace that closes and is in no comment. Where none is left, no bytes.
pub(crate) fn past_brace(text: &[u8], line: u32) -> Remainder<'_>
    requires { line + length text.now < 2 ^ 32 }
    ensures within { result.line + length result.bytes.now < 2 ^ 32 }
    ensures value { SkipsPastBrace (tokens_from line 0 text.now) (tokens_from result.line 0 result.bytes.now) }
{
    let mut rest = text;
    let mut line = line;
    'bytes: while let Some((first, after)) = rest.split_first() {
        let is_brace = *first == b'}';
        if is_brace {
            return Remainder { line, bytes: after };
        }
        line = line_after(*first, line);
        rest = bytes_from(after, comment_at(*first, after));
    }
    Remainder { line, bytes: rest }
}
