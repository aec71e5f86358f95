//! Rows as text.
ghost use Rattle.std.specs.Prelude.{◌≡◌, ◌++◌, ◌∷◌, [], OnOk, drop, map};
ghost use Rattle.mcf_table.specs.Rows.{doubled, quoted};
ghost use Rattle.mcf_table.specs.Written.{further_text, row_text};

use mcf_text::NoMemory;

// Appends a byte, twice if it is a quote.
fn put_byte(out: &mut Vec<u8>, byte: u8) -> Result<(), NoMemory>
    ensures { OnOk result (out.new.items ≡ out.old.items ++ doubled (byte ∷ [])) }
{
    if byte == b'"' {
        out.push(byte)?;
    }
    out.push(byte)?;
    Ok(())
}

// Appends bytes, with each quote twice.
fn put_doubled(out: &mut Vec<u8>, bytes: &[u8]) -> Result<(), NoMemory>
    ensures { OnOk result (out.new.items ≡ out.old.items ++ doubled bytes.now) }
{
    for byte in bytes {
        put_byte(out, *byte)?;
    }
    Ok(())
}

// Appends a cell between quotes.
fn put_quoted(out: &mut Vec<u8>, cell: &[u8]) -> Result<(), NoMemory>
    ensures { OnOk result (out.new.items ≡ out.old.items ++ quoted 0 cell.now) }
{
    out.push(b'"')?;
    put_doubled(out, cell)?;
    out.push(b'"')?;
    Ok(())
}

// Appends a cell after a separator.
fn put_next(out: &mut Vec<u8>, separator: u8, cell: &[u8]) -> Result<(), NoMemory>
    ensures { OnOk result (out.new.items ≡ out.old.items ++ (separator ∷ quoted 0 cell.now)) }
{
    out.push(separator)?;
    put_quoted(out, cell)
}

// Appends further cells of a row, each after a separator.
fn put_further(out: &mut Vec<u8>, separator: u8, cells: &[&[u8]]) -> Result<(), NoMemory>
    ensures { OnOk result (out.new.items ≡ out.old.items ++ further_text separator (map (λ cell. cell.now) cells.now)) }
{
    for cell in cells {
        put_next(out, separator, cell)?;
    }
    Ok(())
}

// Appends the first cell of a row, and further ones.
fn put_cells(out: &mut Vec<u8>, separator: u8, cells: &[&[u8]]) -> Result<(), NoMemory>
    ensures { OnOk result (out.new.items ≡ out.old.items ++ row_text separator (map (λ cell. cell.now) cells.now)) }
{
    match cells.split_first() {
        Some((first, others)) => {
            put_quoted(out, first)?;
            put_further(out, separator, others)
        }
        None => Ok(()),
    }
}

/// Appends the row of these cells, each between quotes, and a line feed. `records_of` reads these
/// cells from it, if one of them isn't empty and no blank stands at the ends of any.
///
/// # Errors
///
/// `NoMemory` if an allocation is refused.
pub fn put_row(out: &mut Vec<u8>, separator: u8, cells: &[&[u8]]) -> Result<(), NoMemory>
    ensures { OnOk result (out.new.items ≡ out.old.items ++ (row_text separator (map (λ cell. cell.now) cells.now) ++ 10 ∷ [])) }
{
    put_cells(out, separator, cells)?;
    out.push(b'\n')?;
    Ok(())
}
