//! Tests of what the texts of answers share.
use mcf_answer_rows::{
    Wrong, cell_at, cell_under, decimal_cell, field_word, line_at, line_cell, name_word, next_cell,
    number_cell, number_word, place_of, put_answer, put_fault, put_line, put_mark, put_number_row,
    put_table, too_great,
};
use mcf_decimal::{Mark, NumberFault};
use mcf_names::NameFault;
use mcf_table::{FieldFault, Records, records_of};
use std::test::Fail;

// A table with a blank line.
const TABLE: &[u8] = b"name;supply\n\nMill;3\nGraz\n";

// Whether the cells of the table stand under their heads.
fn has_cells(records: &Records) -> bool {
    place_of(records, b"Supply") == Some(1)
        && cell_at(records, 1, Some(1)) == b"3".as_slice()
        && cell_at(records, 2, Some(1)).is_empty()
        && cell_under(records, b"NAME", 2) == b"Graz".as_slice()
}

#[test]
fn cells_stand_under_heads(rt: HostRuntime) -> Result<(), Fail> {
    let records = records_of(rt.alloc(), TABLE, b';')??;
    assert!(rt; has_cells(&records));
    Ok(())
}

#[test]
fn rows_have_lines(rt: HostRuntime) -> Result<(), Fail> {
    let records = records_of(rt.alloc(), TABLE, b';')??;
    let line = line_cell(rt.alloc(), &records, 2)?;
    assert!(rt; line_at(&records, 1) == 3 && line_at(&records, 9) == 1);
    assert!(rt; line.as_slice() == b"4".as_slice());
    Ok(())
}

#[test]
fn numbers_are_cells(rt: HostRuntime) -> Result<(), Fail> {
    assert!(rt; number_cell(rt.alloc(), 12)?.as_slice() == b"12".as_slice());
    assert!(rt; next_cell(rt.alloc(), 12)?.as_slice() == b"13".as_slice());
    assert!(rt; decimal_cell(rt.alloc(), -1250, 2)?.as_slice() == b"-12.5".as_slice());
    Ok(())
}

#[test]
fn answers_are_rows(rt: HostRuntime) -> Result<(), Fail> {
    let mut out = Vec::new(rt.alloc());
    put_answer(&mut out, b"plan")?;
    put_number_row(&mut out, b"cost", b"7")?;
    put_line(&mut out, &[b"pair", b"a \"b\""])?;
    let want = b"\"answer\",\"plan\"\n\"cost\",\"7\"\n\"pair\",\"a \"\"b\"\"\"\n";
    assert!(rt; out.as_slice() == want.as_slice());
    Ok(())
}

#[test]
fn tables_are_rows(rt: HostRuntime) -> Result<(), Fail> {
    let records = records_of(rt.alloc(), TABLE, b';')??;
    let mut out = Vec::new(rt.alloc());
    put_mark(&mut out, Some(Mark::Comma))?;
    put_mark(&mut out, None)?;
    put_table(rt.alloc(), &mut out, b"places", &records)?;
    let want = b"\"mark\",\",\"\n\"mark\",\"\"\n\"heads\",\"places\",\"1\",\"name\",\"supply\"\n\
\"row\",\"places\",\"3\",\"Mill\",\"3\"\n\"row\",\"places\",\"4\",\"Graz\"\n";
    assert!(rt; out.as_slice() == want.as_slice());
    Ok(())
}

#[test]
fn faults_are_rows(rt: HostRuntime) -> Result<(), Fail> {
    let mut out = Vec::new(rt.alloc());
    let wrong = Wrong {
        column: b"most",
        what: too_great(),
    };
    put_fault(&mut out, b"routes", b"2", wrong, b"9e9")?;
    let want = b"\"fault\",\"routes\",\"2\",\"most\",\"too great\",\"9e9\"\n";
    assert!(rt; out.as_slice() == want.as_slice());
    Ok(())
}

#[test]
fn faults_have_words(rt: HostRuntime) -> Result<(), Fail> {
    assert!(rt; field_word(FieldFault::AfterQuote) == b"text after a quote".as_slice());
    assert!(rt; name_word(NameFault::Control) == b"control character".as_slice());
    assert!(rt; number_word(NumberFault::Exponent) == b"exponent".as_slice());
    Ok(())
}
