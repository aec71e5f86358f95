//! Cells that aren't names.
ghost use Rattle.std.specs.Prelude.{◌≡◌};
ghost use Rattle.mcf_names.specs.NameFaults.{begins_control, has_control, is_control_byte, is_control_pair, name_fault};

/// Why a cell isn't a name.
#[derive(Clone, Copy, Debug, PartialEq, Eq)]
pub enum NameFault {
    /// The cell is empty.
    Empty,
    /// A line end or another control character stands in it.
    Control,
}

/// Why the cell isn't a name, or `None` if it is one: any text of one line, in UTF-8, that isn't
/// empty and has no control character (U+0000 to U+001F, U+007F to U+009F).
pub fn name_fault(cell: &[u8]) -> Option<NameFault>
    ensures { result ≡ name_fault cell.now }
{
    if cell.is_empty() {
        Some(NameFault::Empty)
    } else if has_control(cell) {
        Some(NameFault::Control)
    } else {
        None
    }
}

// Whether a control character stands in the text.
fn has_control(text: &[u8]) -> bool
    ensures { result ≡ has_control text.now }
{
    let mut rest = text;
    'bytes: while !rest.is_empty() {
        if begins_control(rest) {
            return true;
        }
        rest = &rest[1..];
    }
    false
}

// Whether the text begins with a control character.
fn begins_control(text: &[u8]) -> bool
    ensures { result ≡ begins_control text.now }
{
    (1 <= text.len() && is_control_byte(text[0]))
        || (2 <= text.len() && is_control_pair(text[0], text[1]))
}

// Whether the byte is a control character of ASCII.
fn is_control_byte(byte: u8) -> bool
    ensures { result ≡ is_control_byte byte }
{
    byte < 32 || byte == 127
}

// Whether two bytes are a control character beyond ASCII.
fn is_control_pair(first: u8, second: u8) -> bool
    ensures { result ≡ is_control_pair first second }
{
    first == 0xC2 && (0x80 <= second && second < 0xA0)
}
