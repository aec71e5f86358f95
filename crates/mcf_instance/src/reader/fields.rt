//! The first fields of a line, without any allocation.
ghost use Rattle.std.specs.Prelude.{◌≡◌, ◌≤◌, map, take};
ghost use Rattle.mcf_instance.specs.Private.ReaderState.{field_limit};
ghost use Rattle.mcf_text.specs.Fields.{fields_of};

use mcf_text::fields;

// The number of fields that are read of a line: no valid line has as many.
const FIELD_LIMIT: usize = 7;

/// The first fields of a line: the first `count` of the places.
#[derive(Clone, Copy)]
pub(crate) struct FirstFields<'t> {
    pub(crate) fields: [&'t [u8]; FIELD_LIMIT],
    pub(crate) count: usize,
}

/// The first fields of a line, at most seven.
pub(crate) fn first_fields(line: &[u8]) -> FirstFields<'_>
    ensures count { result.count ≤ field_limit }
    ensures fields { map (λ f. f.now) (take result.count result.fields) ≡ take field_limit (fields_of line.now) }
{
    let mut first: [&[u8]; FIELD_LIMIT] = [&[]; FIELD_LIMIT];
    let mut count = 0;
    for field in fields(line) {
        if count == FIELD_LIMIT {
            break;
        }
        first[count] = field;
        count += 1;
    }
    FirstFields {
        fields: first,
        count,
    }
}
