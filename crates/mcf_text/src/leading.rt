//! The digits at the front of some bytes.
ghost use Rattle.std.specs.Prelude.{◌≡◌, ◌≤◌, ◌<◌, ◌+◌, ◌^◌, IsTrue, true, false, length, min, take};
ghost use Rattle.std.specs.Char.{is_ascii_digit};
ghost use Rattle.std.specs.List.{list_all};
ghost use Rattle.mcf_text.specs.Leading.{digit_count, leading_limit};
ghost use Rattle.mcf_text.specs.Whole.{digits_sum};

// At most this many digits are read.
const LEADING_LIMIT: usize = 18;

/// The digits at the front of some bytes.
#[derive(Clone, Copy, Debug)]
pub struct LeadingDigits {
    /// The number that they spell.
    pub value: u64,
    /// The number of digits.
    pub count: usize,
}

/// The digits at the front of some bytes, at most the first eighteen, and the number that these
/// spell: below 10^18, and 0 if there is no digit.
#[inline(always)]
pub fn leading_digits(bytes: &[u8]) -> LeadingDigits
    ensures count { result.count ≡ digit_count bytes.now }
    ensures value { result.value ≡ digits_sum (take result.count bytes.now) }
    ensures digits { IsTrue (list_all is_ascii_digit (take result.count bytes.now)) }
    ensures few { (result.count ≤ leading_limit) × (result.count ≤ length bytes.now) }
    ensures small { result.value < 10 ^ 18 }
{
    if bytes.len() < LEADING_LIMIT {
        return digits_of_few(bytes);
    }
    digits_among(bytes, LEADING_LIMIT)
}

// The same for fewer bytes than `LEADING_LIMIT`.
#[inline(never)]
fn digits_of_few(bytes: &[u8]) -> LeadingDigits
    requires { length bytes.now < leading_limit }
    ensures count { result.count ≡ digit_count bytes.now }
    ensures value { result.value ≡ digits_sum (take result.count bytes.now) }
    ensures digits { IsTrue (list_all is_ascii_digit (take result.count bytes.now)) }
    ensures few { (result.count ≤ leading_limit) × (result.count ≤ length bytes.now) }
    ensures small { result.value < 10 ^ 18 }
{
    digits_among(bytes, bytes.len())
}

// The same for a known number of bytes: if that is a constant, LLVM unrolls the loop into a line of
// tests.
#[inline(always)]
fn digits_among(bytes: &[u8], most: usize) -> LeadingDigits
    requires { most ≡ min (length bytes.now) leading_limit }
    ensures count { result.count ≡ digit_count bytes.now }
    ensures value { result.value ≡ digits_sum (take result.count bytes.now) }
    ensures digits { IsTrue (list_all is_ascii_digit (take result.count bytes.now)) }
    ensures few { (result.count ≤ leading_limit) × (result.count ≤ length bytes.now) }
    ensures small { result.value < 10 ^ 18 }
{
    let mut value = 0u64;
    let mut count = 0;
    'digits: while count < most {
        let digit = digit_of(bytes[count]);
        if 9 < digit {
            return LeadingDigits { value, count };
        }
        value = value * 10 + digit;
        count += 1;
    }
    LeadingDigits { value, count }
}

// The value of a digit; more than 9 for any other byte.
#[inline(always)]
fn digit_of(byte: u8) -> u64
    ensures digit { result ≤ 9 → (is_ascii_digit byte ≡ true) × (byte ≡ result + 48) }
    ensures other { 9 < result → is_ascii_digit byte ≡ false }
{
    u64::from(byte).wrapping_sub(48)
}
