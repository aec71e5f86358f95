//! Heads that are nearly known: `is_one_letter` and `meant` of `python/mcf_plan/heads.py` give the
//! same.
use mcf_table::{common_word, head_letters, head_number, is_near, is_one_edit, word_and_digits};
use std::test::Fail;

// Words, and whether one edit makes the one the other.
static EDITS: [(&[u8], &[u8], bool); 16] = [
    (b"cost", b"cots", true),
    (b"cost", b"cost", false),
    (b"cost", b"cst", true),
    (b"cost", b"coost", true),
    (b"cost", b"cast", true),
    (b"cost", b"soct", false),
    (b"", b"a", true),
    (b"a", b"", true),
    (b"", b"", false),
    (b"ab", b"ba", true),
    (b"abc", b"cba", false),
    (b"supply", b"suppl", true),
    (b"aa", b"aaa", true),
    (b"ab", b"cab", true),
    (b"abcd", b"ab", false),
    (b"abcd", b"badc", false),
];

// Words that the letters of titles mean, heads, and whether the first nearly is the second.
static NEAR: [(&[u8], &[u8], bool); 9] = [
    (b"suply", b"supply", true),
    (b"nmae", b"name", true),
    (b"costs", b"cost", true),
    (b"bot", b"both", true),
    (b"cost", b"most", true),
    (b"cost", b"cost", false),
    (b"", b"x", false),
    (b"fro", b"who", false),
    (b"supplier", b"supply", false),
];

// Titles, and their letters.
static LETTERS: [(&[u8], &[u8]); 4] = [
    (b"Most_2 ", b"most2"),
    (b" C.o-s T s", b"costs"),
    (b"\xE2\x82\xAC costs", b"costs"),
    (b"", b""),
];

// Words, and those that they mean.
static MEANT: [(&[u8], &[u8]); 6] = [
    (b"min", b"least"),
    (b"minimum", b"least"),
    (b"max", b"most"),
    (b"maximum", b"most"),
    (b"mins", b"mins"),
    (b"cost", b"cost"),
];

// Digits, and their numbers.
static NUMBERS: [(&[u8], usize); 5] = [(b"", 0), (b"7", 7), (b"02", 2), (b"20", 20), (b"99", 99)];

// Letters of heads, their words and their digits.
static DIGITS: [(&[u8], &[u8], &[u8]); 6] = [
    (b"most2", b"most", b"2"),
    (b"cost", b"cost", b""),
    (b"most123", b"most1", b"23"),
    (b"12", b"", b"12"),
    (b"3", b"", b"3"),
    (b"", b"", b""),
];

#[test]
fn words_differ_by_one_edit(rt: HostRuntime) -> Result<(), Fail> {
    for (one, other, wanted) in EDITS {
        assert!(rt; is_one_edit(one, other) == wanted);
    }
    Ok(())
}

#[test]
fn words_are_nearly_heads(rt: HostRuntime) -> Result<(), Fail> {
    for (word, head, wanted) in NEAR {
        assert!(rt; is_near(word, head) == wanted);
    }
    Ok(())
}

#[test]
fn titles_have_letters(rt: HostRuntime) -> Result<(), Fail> {
    for (title, wanted) in LETTERS {
        let letters = head_letters(rt.alloc(), title)?;
        assert!(rt; letters.as_slice() == wanted);
    }
    Ok(())
}

#[test]
fn words_mean_heads(rt: HostRuntime) -> Result<(), Fail> {
    for (word, wanted) in MEANT {
        assert!(rt; common_word(word) == wanted);
    }
    Ok(())
}

#[test]
fn heads_end_in_digits(rt: HostRuntime) -> Result<(), Fail> {
    for (letters, word, digits) in DIGITS {
        assert!(rt; word_and_digits(letters) == (word, digits));
    }
    for (digits, wanted) in NUMBERS {
        assert!(rt; head_number(digits) == wanted);
    }
    Ok(())
}
