//! Blanks at the ends of a cell.
ghost use Rattle.std.specs.Prelude.{◌≡◌, ◌≤◌, length};
ghost use Rattle.mcf_table.specs.Blanks.{back_blank, back_trimmed, front_blank, front_trimmed, is_blank_byte, is_blank_pair, is_blank_triple, is_space_end, is_wide_space, trimmed};

// The text without the blanks at both its ends.
#[tactic(auto, unfolding(crate::specs::Blanks::trimmed))]
pub(crate) fn trimmed(text: &[u8]) -> &[u8]
    ensures { result.now ≡ trimmed text.now }
{
    back_trimmed(front_trimmed(text))
}

// The text without the blanks in front.
fn front_trimmed(text: &[u8]) -> &[u8]
    ensures { result.now ≡ front_trimmed text.now }
{
    let mut rest = text;
    let mut len = front_blank(rest);
    'blanks: while len != 0 {
        rest = &rest[len..];
        len = front_blank(rest);
    }
    rest
}

// The text without the blanks at its end.
fn back_trimmed(text: &[u8]) -> &[u8]
    ensures { result.now ≡ back_trimmed text.now }
{
    let mut rest = text;
    let mut len = back_blank(rest);
    'blanks: while len != 0 {
        rest = &rest[..rest.len() - len];
        len = back_blank(rest);
    }
    rest
}

// How long the blank is with which the text begins; 0 if it begins with none.
#[tactic(auto, unfolding(crate::specs::Blanks::front_blank))]
fn front_blank(text: &[u8]) -> usize
    ensures value { result ≡ front_blank text.now }
    ensures inside { result ≤ length text.now }
{
    if 1 <= text.len() && is_blank_byte(text[0]) {
        1
    } else if 2 <= text.len() && is_blank_pair(text[0], text[1]) {
        2
    } else if 3 <= text.len() && is_blank_triple(text[0], text[1], text[2]) {
        3
    } else {
        0
    }
}

// How long the blank is with which the text ends; 0 if it ends with none.
#[tactic(auto, unfolding(crate::specs::Blanks::back_blank))]
fn back_blank(text: &[u8]) -> usize
    ensures value { result ≡ back_blank text.now }
    ensures inside { result ≤ length text.now }
{
    let len = text.len();
    if 1 <= len && is_blank_byte(text[len - 1]) {
        1
    } else if 2 <= len && is_blank_pair(text[len - 2], text[len - 1]) {
        2
    } else if 3 <= len && is_blank_triple(text[len - 3], text[len - 2], text[len - 1]) {
        3
    } else {
        0
    }
}

// Whether the byte is a blank of ASCII.
fn is_blank_byte(byte: u8) -> bool
    ensures { result ≡ is_blank_byte byte }
{
    byte == b' ' || (9 <= byte && byte <= 13)
}

// Whether two bytes are a blank.
fn is_blank_pair(first: u8, second: u8) -> bool
    ensures { result ≡ is_blank_pair first second }
{
    first == 0xC2 && second == 0xA0
}

// Whether three bytes are a blank.
fn is_blank_triple(first: u8, second: u8, third: u8) -> bool
    ensures { result ≡ is_blank_triple first second third }
{
    (first == 0xE2 && is_wide_space(second, third))
        || (first == 0xE1 && second == 0x9A && third == 0x80)
        || (first == 0xE3 && second == 0x80 && third == 0x80)
        || (first == 0xEF && second == 0xBB && third == 0xBF)
}

// Whether two bytes are a blank after the byte 0xE2.
fn is_wide_space(second: u8, third: u8) -> bool
    ensures { result ≡ is_wide_space second third }
{
    (second == 0x80 && is_space_end(third)) || (second == 0x81 && third == 0x9F)
}

// Whether the byte ends a blank that begins with 0xE2 0x80.
fn is_space_end(third: u8) -> bool
    ensures { result ≡ is_space_end third }
{
    (0x80 <= third && third <= 0x8A) || third == 0xA8 || third == 0xA9 || third == 0xAF
}
