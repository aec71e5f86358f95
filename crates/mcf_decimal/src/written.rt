//! Decimals as text.
ghost use Rattle.std.specs.Prelude.{◌≡◌, ◌+◌, ◌<◌, ◌≤◌, ◌^◌, ◌++◌, length, replicate, OnOk, OnErr, vec_len, vec_capacity};
ghost use Rattle.mcf_decimal.specs.Written.{SaysDecimal, decimal_of, decimal_text, fraction_text, front_digits, last_digits, shifted, trimmed};

use crate::cells::end_zeros;
use itoa::Buffer;
use mcf_text::NoMemory;

/// Appends the text of the decimal `mantissa` times 10 to the power of minus `places`: a `-` if it
/// is below 0, its digits, and a point before its decimals, which don't end with a 0; so 12.50 is
/// `12.5`, and 3.00 is `3`. With a point before decimals, `number` reads the same value from it, if
/// there are at most 1,000 places.
///
/// Fails only if the vector has to grow and the allocation is refused; the vector then keeps its
/// content.
#[tactic(auto, unfolding(crate::specs::Written::decimal_text))]
pub fn put_decimal(out: &mut Vec<u8>, mantissa: i128, places: u32) -> Result<(), NoMemory>
    ensures ok { OnOk result (out.new.items ≡ out.old.items ++ decimal_text mantissa places) }
    ensures err { OnErr result (out.new.items ≡ out.old.items) }
    ensures capacity { vec_capacity out.old ≤ vec_capacity out.new }
    ensures refused { OnErr result (vec_capacity out.old < vec_len out.old + length (decimal_text mantissa places)) }
    ensures reads_back { places ≤ 1000 → SaysDecimal (decimal_text mantissa places) (decimal_of mantissa places) }
{
    let mut buffer = Buffer::new();
    let digits = buffer.format(mantissa.unsigned_abs()).as_bytes();
    let is_negative = mantissa < 0;
    put_shifted(out, is_negative, digits, places)
}

// Appends a minus or none, and digits of which the last `places` are decimals.
#[tactic(auto, unfolding(crate::specs::Written::shifted))]
fn put_shifted(
    out: &mut Vec<u8>,
    is_negative: bool,
    digits: &[u8],
    places: u32,
) -> Result<(), NoMemory>
    requires { length digits.now ≤ 64 }
    ensures ok { OnOk result (out.new.items ≡ out.old.items ++ shifted is_negative digits.now places) }
    ensures err { OnErr result (out.new.items ≡ out.old.items) }
    ensures capacity { vec_capacity out.old ≤ vec_capacity out.new }
    ensures refused { OnErr result (vec_capacity out.old < vec_len out.old + length (shifted is_negative digits.now places)) }
{
    let front = front_digits(digits, places as usize);
    let last = trimmed(last_digits(digits, places as usize));
    let zeros = (places as usize).saturating_sub(digits.len());
    let minus: &[u8] = if is_negative { b"-" } else { b"" };
    let decimals_len = fraction_len(zeros, last);
    out.reserve(minus.len() + front.len() + decimals_len)?;
    put_reserved(out, minus);
    put_reserved(out, front);
    put_fraction(out, zeros, last);
    Ok(())
}

// The digits before the last `places`, or a 0 if there are none.
#[tactic(auto, unfolding(crate::specs::Written::front_digits))]
fn front_digits(digits: &[u8], places: usize) -> &[u8]
    requires { length digits.now ≤ 64 }
    ensures value { result.now ≡ front_digits digits.now places }
    ensures few { length result.now ≤ 64 }
{
    if digits.len() <= places {
        b"0"
    } else {
        &digits[..digits.len() - places]
    }
}

// The last `places` digits, or all.
#[tactic(auto, unfolding(crate::specs::Written::last_digits))]
fn last_digits(digits: &[u8], places: usize) -> &[u8]
    ensures value { result.now ≡ last_digits digits.now places }
    ensures few { length result.now ≤ length digits.now }
{
    let start = digits.len().saturating_sub(places);
    &digits[start..]
}

// Digits without the zeros at their end.
#[tactic(auto, unfolding(crate::specs::Written::trimmed))]
fn trimmed(digits: &[u8]) -> &[u8]
    ensures value { result.now ≡ trimmed digits.now }
    ensures few { length result.now ≤ length digits.now }
{
    let zeros = end_zeros(digits);
    &digits[..digits.len() - zeros]
}

// How long the point, the zeros and the digits are.
#[tactic(auto, unfolding(crate::specs::Written::fraction_text))]
fn fraction_len(zeros: usize, digits: &[u8]) -> usize
    requires { (zeros < 2 ^ 32) × (length digits.now ≤ 64) }
    ensures value { result ≡ length (fraction_text zeros digits.now) }
    ensures few { result ≤ 2 ^ 33 }
{
    if digits.is_empty() {
        0
    } else {
        1 + zeros + digits.len()
    }
}

// Appends a point, zeros and digits, for which there is room; nothing, if there are no digits.
#[tactic(auto, unfolding(crate::specs::Written::fraction_text))]
fn put_fraction(out: &mut Vec<u8>, zeros: usize, digits: &[u8])
    requires { vec_len out.old + length (fraction_text zeros digits.now) ≤ vec_capacity out.old }
    ensures items { out.new.items ≡ out.old.items ++ fraction_text zeros digits.now }
    ensures capacity { vec_capacity out.new ≡ vec_capacity out.old }
{
    if digits.is_empty() {
        return;
    }
    out.push_reserved(b'.');
    put_zeros(out, zeros);
    put_reserved(out, digits);
}

// Appends bytes for which there is room.
fn put_reserved(out: &mut Vec<u8>, bytes: &[u8])
    requires { vec_len out.old + length bytes.now ≤ vec_capacity out.old }
    ensures items { out.new.items ≡ out.old.items ++ bytes.now }
    ensures len { vec_len out.new ≡ vec_len out.old + length bytes.now }
    ensures capacity { vec_capacity out.new ≡ vec_capacity out.old }
{
    for byte in bytes {
        out.push_reserved(*byte);
    }
}

// Appends zeros for which there is room.
fn put_zeros(out: &mut Vec<u8>, count: usize)
    requires { vec_len out.old + count ≤ vec_capacity out.old }
    ensures items { out.new.items ≡ out.old.items ++ replicate count 48 }
    ensures len { vec_len out.new ≡ vec_len out.old + count }
    ensures capacity { vec_capacity out.new ≡ vec_capacity out.old }
{
    let mut written = 0;
    'zeros: while written < count {
        out.push_reserved(b'0');
        written += 1;
    }
}
