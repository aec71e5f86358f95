//! Numbers in cells, as the tools for planners read them: `python/mcf_plan/amounts.py` gives the
//! same values and faults.
use mcf_decimal::{
    Decimal, Mark, Marks, NumberFault, Settled, cells_say_one_number, mark_in, number, put_decimal,
    whole_numbers_read_alike,
};
use std::test::Fail;

// A cell, the mark that is settled, the number that the cell then says, and the mark that it shows.
type NumberRow = (
    &'static [u8],
    Option<Mark>,
    Result<(i128, u32), NumberFault>,
    Option<Mark>,
);

const NO_MARK: Option<Mark> = None;

const POINT: Option<Mark> = Some(Mark::Point);

const COMMA: Option<Mark> = Some(Mark::Comma);

static NUMBERS: [NumberRow; 16] = [
    (b"12.50", NO_MARK, Ok((125, 1)), POINT),
    (b"-1 234,5", COMMA, Ok((-12345, 1)), COMMA),
    (b"1.234.567", COMMA, Ok((1234567, 0)), COMMA),
    (b"\xE2\x88\x927", NO_MARK, Ok((-7, 0)), NO_MARK),
    (b"\xE2\x80\x93,25", COMMA, Ok((-25, 2)), COMMA),
    (b"0.125", NO_MARK, Ok((125, 3)), POINT),
    (b"1'000", NO_MARK, Ok((1000, 0)), NO_MARK),
    (
        b"1\xE2\x80\xAF234\xC2\xA0567.80",
        NO_MARK,
        Ok((12345678, 1)),
        POINT,
    ),
    (b"+0012.000", NO_MARK, Ok((12, 0)), POINT),
    (b"1_000,0001", COMMA, Ok((10000001, 4)), COMMA),
    (b"1.500", POINT, Ok((15, 1)), NO_MARK),
    (b"1.500", COMMA, Ok((1500, 0)), NO_MARK),
    (
        b"0.0000000000000000000000000000000000000000",
        NO_MARK,
        Ok((0, 0)),
        POINT,
    ),
    (
        b"0,33333333333333333333333333333333333333",
        COMMA,
        Ok((33333333333333333333333333333333333333, 38)),
        COMMA,
    ),
    (
        b"170141183460469231731687303715884105727",
        NO_MARK,
        Ok((170141183460469231731687303715884105727, 0)),
        NO_MARK,
    ),
    (
        b"-170141183460469231731687303715884105728",
        NO_MARK,
        Ok((-170141183460469231731687303715884105728, 0)),
        NO_MARK,
    ),
];

static FAULTS: [NumberRow; 13] = [
    (b"1.500", NO_MARK, Err(NumberFault::Either), NO_MARK),
    (b"1e3", NO_MARK, Err(NumberFault::Exponent), NO_MARK),
    (b"2,5E-1", NO_MARK, Err(NumberFault::Exponent), NO_MARK),
    (b"", NO_MARK, Err(NumberFault::Empty), NO_MARK),
    (b"1,5", NO_MARK, Err(NumberFault::OtherMark), COMMA),
    (b"1,5", POINT, Err(NumberFault::OtherMark), COMMA),
    (b"1 00", NO_MARK, Err(NumberFault::NoNumber), NO_MARK),
    (b"1.2.3", COMMA, Err(NumberFault::NoNumber), NO_MARK),
    (b"ten", NO_MARK, Err(NumberFault::NoNumber), NO_MARK),
    (b"--1", NO_MARK, Err(NumberFault::NoNumber), NO_MARK),
    (b"1 234.567.890", COMMA, Err(NumberFault::NoNumber), NO_MARK),
    (
        b"170141183460469231731687303715884105728",
        NO_MARK,
        Err(NumberFault::TooLong),
        NO_MARK,
    ),
    (
        b"999999999999999999999999999999999999999999999999999999999999",
        NO_MARK,
        Err(NumberFault::TooLong),
        NO_MARK,
    ),
];

// Whether the cells say these numbers or have these faults, and show these marks.
fn read_as(rows: &[NumberRow]) -> bool {
    for (cell, mark, wanted, shown) in rows {
        let said = match number(cell, *mark) {
            Ok(Decimal { mantissa, places }) => Ok((mantissa, places)),
            Err(fault) => Err(fault),
        };
        let is_wanted = said == *wanted;
        let is_shown = mark_in(cell) == *shown;
        if !is_wanted || !is_shown {
            return false;
        }
    }
    true
}

#[test]
fn cells_say_numbers(rt: HostRuntime) -> Result<(), Fail> {
    assert!(rt; read_as(&NUMBERS));
    Ok(())
}

#[test]
fn cells_have_faults(rt: HostRuntime) -> Result<(), Fail> {
    assert!(rt; read_as(&FAULTS));
    Ok(())
}

#[test]
fn decimals_are_scaled(rt: HostRuntime) -> Result<(), Fail> {
    let rate = Decimal {
        mantissa: -125,
        places: 2,
    };
    assert!(rt; rate.at_scale(4) == Some(-12_500));
    assert!(rt; rate.at_scale(1).is_none() && rate.at_scale(19).is_none());
    let none = Decimal {
        mantissa: 0,
        places: 0,
    };
    assert!(rt; none.at_scale(1000) == Some(0));
    Ok(())
}

// Mantissas, places, and the text of the decimal, as the tools write it.
static TEXTS: [(i128, u32, &[u8]); 10] = [
    (125, 1, b"12.5"),
    (-1250, 3, b"-1.25"),
    (300, 2, b"3"),
    (0, 5, b"0"),
    (5, 3, b"0.005"),
    (-5, 0, b"-5"),
    (120, 0, b"120"),
    (
        170141183460469231731687303715884105727,
        38,
        b"1.70141183460469231731687303715884105727",
    ),
    (
        -170141183460469231731687303715884105728,
        40,
        b"-0.0170141183460469231731687303715884105728",
    ),
    (1, 12, b"0.000000000001"),
];

#[test]
fn decimals_are_written(rt: HostRuntime) -> Result<(), Fail> {
    for (mantissa, places, text) in TEXTS {
        let mut out = Vec::new(rt.alloc());
        put_decimal(&mut out, mantissa, places)?;
        let is_text = out.as_slice() == text;
        assert!(rt; is_text);
    }
    Ok(())
}

// Cells, and which mark they settle if none is named.
static SETTLED: [(&[&[u8]], Settled); 4] = [
    (&[b"1.000", b"7", b"x"], Settled::Open),
    (&[b"1.000", b"12,50"], Settled::One(Mark::Comma)),
    (&[b"", b"0.125", b".5"], Settled::One(Mark::Point)),
    (
        &[b"7", b"12,50", b"1.5", b"2,5"],
        Settled::Both {
            first: 1,
            second: 2,
        },
    ),
];

#[test]
fn cells_settle_the_mark(rt: HostRuntime) -> Result<(), Fail> {
    for (cells, wanted) in SETTLED {
        let mut marks = Marks::none();
        for cell in cells {
            if marks.seen < 4 {
                marks = marks.with_cell(cell);
            }
        }
        assert!(rt; marks.settled(None) == wanted);
        assert!(rt; marks.settled(Some(Mark::Point)) == Settled::One(Mark::Point));
    }
    Ok(())
}

#[test]
fn marks_are_told_apart(rt: HostRuntime) -> Result<(), Fail> {
    assert!(rt; Mark::Point.byte() == b'.' && Mark::Comma.byte() == b',');
    assert!(rt; Mark::Point.other() == Mark::Comma && Mark::Comma.other() == Mark::Point);
    Ok(())
}

#[test]
fn laws_of_numbers_hold(_rt: HostRuntime) -> Result<(), Fail> {
    cells_say_one_number();
    whole_numbers_read_alike();
    Ok(())
}
