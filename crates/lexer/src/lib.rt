// A text cut into lexemes: numbers, words, quoted words and braces, each with the byte at which it begins.
//
//   12 moves /box { fills } % a remark
//   |  |     |    | |     |
//   Number   |    | Word  Close
//      Word  |    Open
//            Quoted
//
// `lexeme_at` is the one cursor over a text: it skips spaces, ends of lines and remarks, gives the lexeme there and
// the byte behind it, or the first byte that cannot stand where it stands. It allocates nothing and copies nothing.
#![tactic(auto)]

ghost use Rattle.std.specs.Prelude.{◌≡◌, ℕ, ◌+◌, ◌-◌, ◌*◌, ◌<◌, ◌≤◌, min, true, false, List, ◌++◌, length, drop, ◌==◌, slice_index};
ghost use Rattle.std.specs.List.{prefix_len};
ghost use Rattle.lexer.specs.Reading.{is_space, is_digit, is_letter, is_brace, pieces, between, a_number, a_word, a_quoted, a_remark};
ghost use Rattle.lexer.specs.Lexing.{from, in_line, ends_at, Run, WordEnd, Saw};

pub mod laws;

// A piece of a text, with the byte at which it begins; `Wrong` says which byte cannot stand where it stands.
#[derive(Clone, Copy, Debug, PartialEq, Eq)]
pub enum Lexeme<'a> {
    End,
    Open { place: usize },
    Close { place: usize },
    Number { place: usize, value: u32 },
    Word { place: usize, letters: &'a [u8] },
    Quoted { place: usize, letters: &'a [u8] },
    Wrong { place: usize },
}

// A number of this value or more is above every limit, so that digits stop counting there.
pub const CAP: u32 = 2147483648;

// The most letters that a word may have.
pub const LETTERS: usize = 31;

fn space(b: u8) -> bool
    ensures { result ≡ is_space b }
{
    matches!(b, b' ' | b'\n')
}

fn digit(b: u8) -> bool
    ensures { result ≡ is_digit b }
{
    b.is_ascii_digit()
}

fn letter(b: u8) -> bool
    ensures { result ≡ is_letter b }
{
    b.is_ascii_lowercase() || b == b'-'
}

fn brace(b: u8) -> bool
    ensures { result ≡ is_brace b }
{
    matches!(b, b'{' | b'}')
}

// How many bytes stand in front of the end of a line.
fn line_length(bytes: &[u8]) -> usize
    ensures { result ≡ prefix_len in_line bytes.now }
{
    bytes.iter().take_while(|b| **b != b'\n').count()
}

// The end of the line that a remark stands in, or of the text.
fn skip_remark(source: &[u8], at: usize) -> usize
    requires { at ≤ length source.now }
    ensures rest { pieces (drop at source.now) at a_remark ≡ from source.now result }
    ensures bound { at ≤ result }
{
    at + line_length(&source[at..])
}

// Past spaces, ends of lines and remarks.
fn skip_blanks(source: &[u8], at: usize) -> usize
    ensures rest { from source.now at ≡ from source.now result }
    ensures bound { at ≤ result }
    ensures stops { result < length source.now → (is_space (slice_index source.now result) ≡ false) × ((slice_index source.now result == 37) ≡ false) }
{
    // no chain: a remark is passed in one step, by its length
    let mut i = at;
    while i < source.len() {
        let b = source[i];
        if space(b) {
            i += 1;
        } else if b == b'%' {
            i = skip_remark(source, i + 1);
        } else {
            return i;
        }
    }
    i
}

// One digit more, up to the cap.
fn with_digit(value: u32, b: u8) -> u32
    requires { value ≤ 2147483648 }
    ensures { result ≡ min (10 * value + (b - 48)) 2147483648 }
{
    let more = 10 * value as u64 + b.saturating_sub(b'0') as u64;
    if more < CAP as u64 { more as u32 } else { CAP }
}

// The digits from a byte on: what they come to, up to the cap, and where they end.
fn scan_digits(source: &[u8], at: usize) -> (u32, usize)
    ensures value { (p : ℕ) → ((n : ℕ) × (result.0 ≡ min n 2147483648) × (pieces (drop at source.now) at (a_number p 0) ≡ pieces (drop result.1 source.now) result.1 (a_number p n))) }
    ensures bound { at ≤ result.1 }
    ensures within { at ≤ length source.now → result.1 ≤ length source.now }
    ensures stops { result.1 < length source.now → is_digit (slice_index source.now result.1) ≡ false }
{
    // no chain: one walk gives both what the digits come to and where they end
    let mut i = at;
    let mut value = 0;
    while i < source.len() && digit(source[i]) {
        value = with_digit(value, source[i]);
        i += 1;
    }
    (value, i)
}

// How many letters stand in front of anything else.
fn letters_before(bytes: &[u8]) -> usize
    ensures { result ≡ prefix_len is_letter bytes.now }
{
    bytes.iter().take_while(|b| letter(**b)).count()
}

// Where the letters from a byte on end.
fn letters_end(source: &[u8], at: usize) -> usize
    requires { at ≤ length source.now }
    ensures { Run source.now at result }
{
    at + letters_before(&source[at..])
}

// Whether a number or a word may end before this byte: at a space, an end of line, a brace or the end of the text.
fn may_end(source: &[u8], i: usize) -> bool
    ensures { result ≡ ends_at source.now i }
{
    i >= source.len() || space(source[i]) || brace(source[i])
}

fn number_at<'a>(source: &'a [u8], place: usize) -> (Lexeme<'a>, usize)
    requires { (place < length source.now) × (is_digit (slice_index source.now place) ≡ true) }
    ensures { Saw source.now place result.0 result.1 }
{
    let (value, end) = scan_digits(source, place);
    if may_end(source, end) {
        (Lexeme::Number { place, value }, end)
    } else {
        (Lexeme::Wrong { place: end }, end)
    }
}

// Where a word ends whose letters begin at a byte; or the byte that is wrong: the first letter too many, or one behind the
// letters at which no word may end.
fn word_end(source: &[u8], start: usize) -> Result<usize, usize>
    requires { start ≤ length source.now }
    ensures { WordEnd source.now start result }
{
    let end = letters_end(source, start);
    if end - start > LETTERS {
        return Err(start + LETTERS);
    }
    if may_end(source, end) {
        Ok(end)
    } else {
        Err(end)
    }
}

fn word_at<'a>(source: &'a [u8], place: usize) -> (Lexeme<'a>, usize)
    requires { (place < length source.now) × (is_letter (slice_index source.now place) ≡ true) }
    ensures { Saw source.now place result.0 result.1 }
{
    match word_end(source, place) {
        Ok(end) => {
            let letters = &source[place..end];
            (Lexeme::Word { place, letters }, end)
        }
        Err(wrong) => (Lexeme::Wrong { place: wrong }, wrong),
    }
}

fn quoted_at<'a>(source: &'a [u8], place: usize) -> (Lexeme<'a>, usize)
    requires { (place < length source.now) × (slice_index source.now place ≡ 47) }
    ensures { Saw source.now place result.0 result.1 }
{
    let start = place + 1;
    match word_end(source, start) {
        Ok(end) if end > start => {
            let letters = &source[start..end];
            (Lexeme::Quoted { place, letters }, end)
        }
        // a stroke with no letter behind it
        Ok(end) => (Lexeme::Wrong { place: end }, end),
        Err(wrong) => (Lexeme::Wrong { place: wrong }, wrong),
    }
}

// The lexeme at or after a byte, and the byte behind it.
pub fn lexeme_at<'a>(source: &'a [u8], at: usize) -> (Lexeme<'a>, usize)
    ensures { Saw source.now at result.0 result.1 }
{
    let place = skip_blanks(source, at);
    if place >= source.len() {
        return (Lexeme::End, source.len());
    }
    let b = source[place];
    if b == b'{' {
        return (Lexeme::Open { place }, place + 1);
    }
    if b == b'}' {
        return (Lexeme::Close { place }, place + 1);
    }
    if digit(b) {
        return number_at(source, place);
    }
    if letter(b) {
        return word_at(source, place);
    }
    if b == b'/' {
        return quoted_at(source, place);
    }
    (Lexeme::Wrong { place }, place)
}
