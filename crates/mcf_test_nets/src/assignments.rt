//! Texts of assignments of many rows.

use mcf_text::{NoMemory, put_number};
use std::alloc::Global;

// The first lines of an assignment of this many rows and as many columns.
fn begun(alloc: Global, size: i128, arcs: i128) -> Result<Vec<u8>, NoMemory> {
    let mut text = Vec::new(alloc);
    put_line(&mut text, b"p asn", &[size.wrapping_mul(2), arcs])?;
    for i in 1..size.wrapping_add(1) {
        put_line(&mut text, b"n", &[i])?;
    }
    Ok(text)
}

/// An assignment of this many rows and as many columns, in which row i may go to column j for (i *
/// j) mod 101.
pub fn multiples(alloc: Global, size: u32) -> Result<Vec<u8>, NoMemory> {
    let size = i128::from(size);
    let mut text = begun(alloc, size, size * size)?;
    for i in 1..size + 1 {
        put_row(&mut text, i, size)?;
    }
    Ok(text)
}

// Appends the lines of the arcs of a row.
fn put_row(text: &mut Vec<u8>, i: i128, size: i128) -> Result<(), NoMemory> {
    for j in 1..size.wrapping_add(1) {
        let cost = i.wrapping_mul(j) % 101;
        put_line(text, b"a", &[i, j.wrapping_add(size), cost])?;
    }
    Ok(())
}

/// An assignment of this many rows and as many columns with four arcs a row: row i may go to the
/// column k * (i * k + 17) further on than column i, for (37 * i * i * (k + 3) + 11 * k) mod 1009
/// of a unit, with k from 0 to 3.
pub fn short_rows(alloc: Global, size: u32, unit: i128) -> Result<Vec<u8>, NoMemory> {
    let size = i128::from(size);
    let mut text = begun(alloc, size, size * 4)?;
    for i in 1..size + 1 {
        put_short_row(&mut text, i, size, unit)?;
    }
    Ok(text)
}

static STEPS: [i128; 4] = [0, 1, 2, 3];

// Appends the lines of the arcs of a short row.
fn put_short_row(text: &mut Vec<u8>, i: i128, size: i128, unit: i128) -> Result<(), NoMemory> {
    for k in STEPS {
        let further = i.wrapping_mul(k).wrapping_add(17).wrapping_mul(k);
        let column = modulo(i.wrapping_sub(1).wrapping_add(further), size);
        let square = i.wrapping_mul(i).wrapping_mul(k.wrapping_add(3));
        let scaled = square.wrapping_mul(37).wrapping_add(k.wrapping_mul(11));
        let to = column.wrapping_add(size).wrapping_add(1);
        let cost = modulo(scaled, 1009).wrapping_mul(unit);
        put_line(text, b"a", &[i, to, cost])?;
    }
    Ok(())
}

// What is left over by a whole number above 0; 0 where it isn't.
fn modulo(x: i128, by: i128) -> i128 {
    if by <= 0 {
        return 0;
    }
    x.wrapping_rem_euclid(by)
}

/// Puts a line of words and numbers: a letter, the numbers and an end of the line.
pub fn put_line(out: &mut Vec<u8>, letter: &[u8], numbers: &[i128]) -> Result<(), NoMemory> {
    out.extend_from_slice(letter)?;
    for number in numbers {
        out.push(b' ')?;
        put_number(out, *number)?;
    }
    out.push(b'\n')?;
    Ok(())
}
