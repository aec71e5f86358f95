//! Heads that say a rank.
ghost use Rattle.std.specs.Prelude.{◌≡◌, map};
ghost use Rattle.std.specs.Str.{str_eq_ignore_ascii_case};
ghost use Rattle.mcf_forms.specs.Ranks.{number_rank, rank_of, without_back, without_front, without_words, word_rank};

use crate::cells::is_word;
use mcf_text::leading_digits;

// Whether the texts are the same, with ASCII letters in either case.
fn is_alike(one: &[u8], other: &[u8]) -> bool
    ensures { result ≡ str_eq_ignore_ascii_case one.now other.now }
{
    one.eq_ignore_ascii_case(other)
}

// The text without this word at its front.
#[tactic(auto, unfolding(crate::specs::Ranks::without_front))]
fn without_front<'t>(word: &[u8], text: &'t [u8]) -> &'t [u8]
    ensures { result.now ≡ without_front word.now text.now }
{
    let count = word.len().min(text.len());
    if is_alike(&text[..count], word) {
        &text[count..]
    } else {
        text
    }
}

// The text without this word at its end.
#[tactic(auto, unfolding(crate::specs::Ranks::without_back))]
fn without_back<'t>(word: &[u8], text: &'t [u8]) -> &'t [u8]
    ensures { result.now ≡ without_back word.now text.now }
{
    let count = text.len().saturating_sub(word.len());
    if is_alike(&text[count..], word) {
        &text[..count]
    } else {
        text
    }
}

// The text without each of these words at both ends, one after another.
fn without_words<'t>(words: &[&[u8]], text: &'t [u8]) -> &'t [u8]
    ensures { result.now ≡ without_words (map (λ word. word.now) words.now) text.now }
{
    let mut left = text;
    'words: for place in 0..words.len() {
        left = without_back(words[place], without_front(words[place], left));
    }
    left
}

// The number that one or two digits say, perhaps with an end; 0 if the text is none.
#[tactic(auto, unfolding(crate::specs::Ranks::number_rank))]
fn number_rank(text: &[u8]) -> u64
    ensures { result ≡ number_rank text.now }
{
    let lead = leading_digits(text);
    if lead.count < 1 || 2 < lead.count {
        return 0;
    }
    let ends: [&[u8]; 6] = [b"", b".", b"st", b"nd", b"rd", b"th"];
    if is_word(&ends, &text[lead.count..]) {
        lead.value
    } else {
        0
    }
}

// The number that a word says, from 1 to 5; 0 if it is none of these.
#[tactic(auto, unfolding(crate::specs::Ranks::word_rank))]
fn word_rank(text: &[u8]) -> u64
    ensures { result ≡ word_rank text.now }
{
    if is_word(&[b"first", b"erst", b"erste", b"erster"], text) {
        1
    } else if is_word(&[b"second", b"zweit", b"zweite", b"zweiter"], text) {
        2
    } else if is_word(&[b"third", b"dritt", b"dritte", b"dritter"], text) {
        3
    } else if is_word(&[b"fourth", b"viert", b"vierte", b"vierter"], text) {
        4
    } else if is_word(
        &[
            b"fifth",
            b"f\xC3\xBCnft",
            b"f\xC3\xBCnfte",
            b"f\xC3\xBCnfter",
        ],
        text,
    ) {
        5
    } else {
        0
    }
}

// The rank that a head says, perhaps beside a word for a wish; 0 if it says none.
#[tactic(auto, unfolding(crate::specs::Ranks::rank_of))]
pub(crate) fn rank_of(head: &[u8]) -> u64
    ensures { result ≡ rank_of head.now }
{
    let left = without_words(&[b"wish", b"choice", b"wunsch", b"wahl", b" "], head);
    number_rank(left).max(word_rank(left))
}
