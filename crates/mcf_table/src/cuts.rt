//! The first place of a byte.
ghost use Rattle.std.specs.Prelude.{◌≡◌, false, MatchOption, position};
ghost use Rattle.std.specs.List.{list_any};
ghost use Rattle.memchr.specs.Find.{is_byte};
ghost use Rattle.mcf_table.specs.Rows.{ends_field};
ghost use Rattle.mcf_table.specs.Private.Found.{EndsAt, IsFirstAt};

use memchr::memchr;

// The first place of a byte.
pub(crate) fn first_of(byte: u8, text: &[u8]) -> Option<usize>
    ensures { MatchOption result (list_any (is_byte byte) text.now ≡ false) (λ place. IsFirstAt byte text.now place) }
{
    memchr(byte, text)
}

// The first place of a byte that ends a field.
pub(crate) fn first_end(separator: u8, text: &[u8]) -> Option<usize>
    ensures { MatchOption result (list_any (ends_field separator) text.now ≡ false) (λ place. EndsAt separator text.now place) }
{
    end_place(separator, text)
}

fn end_place(separator: u8, text: &[u8]) -> Option<usize>
    ensures { result ≡ position (ends_field separator) text.now }
{
    text.iter()
        .position(|byte| *byte == separator || *byte == b'\n')
}
