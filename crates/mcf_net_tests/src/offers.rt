//! Numbers of one width, and the queue of offers.

use mcf_numbers::{Number, Width};
use mcf_offers::{Offer, Offers};
use mcf_text::NoMemory;
use std::alloc::Global;
use std::cmp::Ordering;
use std::test::Fail;

// Whether an offer that waits is taken out as it was, and none after it.
fn is_taken<W: Width>(alloc: Global) -> Result<bool, NoMemory> {
    let mut offers = Offers::<W>::new(alloc, 1, 1)?;
    offers.put(Offer {
        dist: Number::of(7),
        column: 2,
        arc: 3,
    });
    let Some(offer) = offers.take() else {
        return Ok(false);
    };
    let is_empty = offers.take().is_none();
    offers.clear();
    Ok(is_empty && offer.dist == Number::of(7) && offer.column == 2 && offer.arc == 3)
}

#[test]
fn an_offer_waits(rt: HostRuntime) -> Result<(), Fail> {
    assert!(rt; is_taken::<i64>(rt.alloc())?);
    assert!(rt; is_taken::<i128>(rt.alloc())?);
    Ok(())
}

// Whether one number is less than another, by each comparison.
fn is_less<W: Width>(one: Number<W>, other: Number<W>) -> bool {
    let differs = one != other;
    let greater = other.cmp(&one) == Ordering::Greater;
    one < other && differs && greater
}

#[test]
fn counts_in_64_bits(rt: HostRuntime) -> Result<(), Fail> {
    let three = Number::<i64>::of(3);
    let five = Number::<i64>::of(5);
    let sum = three.plus(five).narrow();
    let difference = three.minus(five).narrow();
    assert!(rt; sum == 8 && difference == -2 && three.wide() == 3 && is_less(three, five));
    Ok(())
}

#[test]
fn counts_in_128_bits(rt: HostRuntime) -> Result<(), Fail> {
    let far = Number::<i128>::of(i64::MAX);
    let one = Number::<i128>::of(1);
    let sum = far.plus(far).wide();
    let difference = one.minus(far).wide();
    let farthest = Number::of_wide(i128::MAX);
    assert!(rt; sum == 18_446_744_073_709_551_614 && difference == -9_223_372_036_854_775_806);
    assert!(rt; farthest.wide() == i128::MAX && is_less(far, farthest));
    assert!(rt; is_less(one, far));
    Ok(())
}
