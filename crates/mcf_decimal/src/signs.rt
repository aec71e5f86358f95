//! The sign of a number.
ghost use Rattle.std.specs.Prelude.{◌≡◌, ◌≤◌, IsTrue, length};
ghost use Rattle.mcf_decimal.specs.Signs.{has_plus, is_negative, minus_len, unsigned};

// Whether the cell begins with a minus, and the cell after its sign.
#[tactic(auto, unfolding(crate::specs::Signs::is_negative, crate::specs::Signs::unsigned))]
pub(crate) fn split_sign(cell: &[u8]) -> (bool, &[u8])
    ensures sign { result.0 ≡ is_negative cell.now }
    ensures rest { result.1.now ≡ unsigned cell.now }
{
    if has_plus(cell) {
        return (false, &cell[1..]);
    }
    let len = minus_len(cell);
    (len != 0, &cell[len..])
}

// Whether the first byte is a plus.
#[tactic(auto, unfolding(crate::specs::Signs::has_plus))]
fn has_plus(cell: &[u8]) -> bool
    ensures value { result ≡ has_plus cell.now }
    ensures inside { IsTrue result → 1 ≤ length cell.now }
{
    cell.starts_with(b"+")
}

// How long the minus is with which the text begins; 0 if it begins with none.
#[tactic(auto, unfolding(crate::specs::Signs::minus_len))]
fn minus_len(text: &[u8]) -> usize
    ensures value { result ≡ minus_len text.now }
    ensures inside { result ≤ length text.now }
{
    if text.starts_with(b"-") {
        1
    } else if text.starts_with(b"\xE2\x80\x90") {
        3
    } else if text.starts_with(b"\xE2\x80\x91") {
        3
    } else if text.starts_with(b"\xE2\x80\x92") {
        3
    } else if text.starts_with(b"\xE2\x80\x93") {
        3
    } else if text.starts_with(b"\xE2\x88\x92") {
        3
    } else if text.starts_with(b"\xEF\xB9\xA3") {
        3
    } else if text.starts_with(b"\xEF\xBC\x8D") {
        3
    } else {
        0
    }
}
