//! Heads that are nearly those of a table.
ghost use Rattle.std.specs.Prelude.{◌≡◌, ◌-◌, ◌≤◌, ◌↔◌, IfOk, IsTrue, length};
ghost use Rattle.std.specs.Str.{bytes_eq};
ghost use Rattle.mcf_table.specs.NearHeads.{IsOneEdit, are_swapped, common_word, differ_once, digit_count, head_digits, head_letters, head_number, head_word, is_near, is_one_edit};
ghost use Rattle.mcf_table.specs.Private.Edits.{begin_alike};

use mcf_text::NoMemory;
use std::alloc::Global;

/// The letters and digits of a head, in lower case; only those of ASCII count.
///
/// # Errors
///
/// `NoMemory` if an allocation is refused.
pub fn head_letters(alloc: Global, head: &[u8]) -> Result<Vec<u8>, NoMemory>
    ensures { IfOk result (λ letters. letters.items ≡ head_letters head.now) }
{
    let letters = head
        .iter()
        .filter(|byte| byte.is_ascii_alphanumeric())
        .map(|byte| byte.to_ascii_lowercase())
        .collect(alloc)?;
    Ok(letters)
}

/// The letters of a head without the digits at their end, and these digits, two at most: `most`
/// and `2` of `most2`.
pub fn word_and_digits(letters: &[u8]) -> (&[u8], &[u8])
    ensures word { result.0.now ≡ head_word letters.now }
    ensures digits { result.1.now ≡ head_digits letters.now }
{
    letters.split_at(letters.len() - digit_count(letters))
}

// How many digits end the letters, two at most.
fn digit_count(letters: &[u8]) -> usize
    ensures count { result ≡ digit_count letters.now }
    ensures inside { result ≤ length letters.now }
{
    let len = letters.len();
    if len == 0 || !letters[len - 1].is_ascii_digit() {
        0
    } else if len == 1 || !letters[len - 2].is_ascii_digit() {
        1
    } else {
        2
    }
}

/// The number that these digits spell, two at most; 0 if there are none.
pub fn head_number(digits: &[u8]) -> usize
    ensures { result ≡ head_number digits.now }
{
    match digits {
        [] => 0,
        [digit] => digit_value(*digit),
        [ten, digit, ..] => 10 * digit_value(*ten) + digit_value(*digit),
    }
}

// The value of a digit.
fn digit_value(digit: u8) -> usize
    ensures value { result ≡ digit - 48 }
    ensures small { result ≤ 255 }
{
    usize::from(digit.saturating_sub(b'0'))
}

/// The word that is meant by one that heads have for a limit: `least` by `min` and `minimum`,
/// `most` by `max` and `maximum`; any other means itself.
#[tactic(auto, unfolding(crate::specs::NearHeads::common_word))]
pub fn common_word<'t>(word: &'t [u8]) -> &'t [u8]
    ensures { result.now ≡ common_word word.now }
{
    if is_same(word, b"min") || is_same(word, b"minimum") {
        b"least"
    } else if is_same(word, b"max") || is_same(word, b"maximum") {
        b"most"
    } else {
        word
    }
}

/// Whether the word is nearly this head, which is longer than three letters: one letter is added,
/// dropped or changed, or two neighbours are swapped.
pub fn is_near(word: &[u8], head: &[u8]) -> bool
    ensures { result ≡ is_near word.now head.now }
{
    3 < head.len() && is_one_edit(word, head)
}

/// Whether one word becomes the other if one letter is added, dropped or changed, or if two
/// neighbours are swapped. It takes time linear in their lengths.
pub fn is_one_edit(one: &[u8], other: &[u8]) -> bool
    ensures value { result ≡ is_one_edit one.now other.now }
    ensures edit { IsTrue result ↔ IsOneEdit one.now other.now }
{
    edited_once(one, other)
}

// Whether the words differ by one edit, past the letters with which both begin.
fn edited_once(one: &[u8], other: &[u8]) -> bool
    ensures { result ≡ is_one_edit one.now other.now }
{
    let mut left = one;
    let mut right = other;
    'letters: while begin_alike(left, right) {
        left = &left[1..];
        right = &right[1..];
    }
    differ_once(left, right)
}

// Whether both words begin with the same letter.
fn begin_alike(one: &[u8], other: &[u8]) -> bool
    ensures { result ≡ begin_alike one.now other.now }
{
    !one.is_empty() && !other.is_empty() && one[0] == other[0]
}

// Whether one edit at their first letters makes one word the other.
fn differ_once(one: &[u8], other: &[u8]) -> bool
    ensures { result ≡ differ_once one.now other.now }
{
    if one.is_empty() {
        return other.len() == 1;
    }
    if other.is_empty() {
        return one.len() == 1;
    }
    is_same(&one[1..], &other[1..])
        || is_same(one, &other[1..])
        || is_same(&one[1..], other)
        || are_swapped(one, other)
}

// Whether the first two letters of one word are those of the other, swapped, and the rest is the
// same.
fn are_swapped(one: &[u8], other: &[u8]) -> bool
    ensures { result ≡ are_swapped one.now other.now }
{
    2 <= one.len()
        && 2 <= other.len()
        && one[0] == other[1]
        && one[1] == other[0]
        && is_same(&one[2..], &other[2..])
}

// Whether the words are the same.
fn is_same(one: &[u8], other: &[u8]) -> bool
    ensures { result ≡ bytes_eq one.now other.now }
{
    one == other
}
