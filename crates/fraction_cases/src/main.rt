// The arithmetic on fixed cases, a line each: those of document 01, operands that are no fractions, and both sides of the limit.
#![tactic(auto)]

use fraction::{ArithmeticError, Fraction, NotAFraction};
use std::cmp::Ordering;
use std::io;

// A pair of numbers, a fraction or not.
fn pair(num: i32, den: i32) -> Fraction {
    Fraction { num, den }
}

// The answer of a product or a sum.
fn value(rt: &impl Print, answer: Result<Fraction, ArithmeticError>) -> io::Result<()> {
    match answer {
        Ok(f) => println!(rt; " = {f}"),
        Err(refusal) => println!(rt; ": refused {}", u8::from(refusal)),
    }
}

// The answer of floor or ceiling.
fn whole(rt: &impl Print, answer: Result<i32, NotAFraction>) -> io::Result<()> {
    match answer {
        Ok(n) => println!(rt; " = {n}"),
        Err(refusal) => println!(rt; ": refused {}", u8::from(ArithmeticError::from(refusal))),
    }
}

fn product(rt: &impl Print, a: Fraction, b: Fraction) -> io::Result<()> {
    print!(rt; "{a} * {b}")?;
    value(rt, fraction::product(a, b))
}

fn sum(rt: &impl Print, a: Fraction, b: Fraction) -> io::Result<()> {
    print!(rt; "{a} + {b}")?;
    value(rt, fraction::sum(a, b))
}

fn add_product(rt: &impl Print, s: Fraction, a: Fraction, b: Fraction) -> io::Result<()> {
    print!(rt; "{s} + {a} * {b}")?;
    value(rt, fraction::add_product(s, a, b))
}

fn compare(rt: &impl Print, a: Fraction, b: Fraction) -> io::Result<()> {
    print!(rt; "{a} against {b}: ")?;
    match fraction::compare(a, b) {
        Ok(Ordering::Less) => println!(rt; "less"),
        Ok(Ordering::Equal) => println!(rt; "equal"),
        Ok(Ordering::Greater) => println!(rt; "greater"),
        Err(refusal) => println!(rt; "refused {}", u8::from(ArithmeticError::from(refusal))),
    }
}

fn floor(rt: &impl Print, a: Fraction) -> io::Result<()> {
    print!(rt; "floor({a})")?;
    whole(rt, fraction::floor(a))
}

fn ceiling(rt: &impl Print, a: Fraction) -> io::Result<()> {
    print!(rt; "ceiling({a})")?;
    whole(rt, fraction::ceiling(a))
}

// Every operation on f, on either side.
fn every(rt: &impl Print, f: Fraction) -> io::Result<()> {
    let half = pair(1, 2);
    product(rt, f, half)?;
    product(rt, half, f)?;
    sum(rt, f, half)?;
    sum(rt, half, f)?;
    compare(rt, f, half)?;
    compare(rt, half, f)?;
    floor(rt, f)?;
    ceiling(rt, f)
}

// Document 01, "Numbers on either side".
fn document(rt: &impl Print) -> io::Result<()> {
    floor(rt, pair(-1, 2))?;
    ceiling(rt, pair(-1, 2))?;
    floor(rt, pair(-3, 1))?;
    product(rt, pair(1, 65536), pair(1, 32767))?;
    product(rt, pair(1, 65536), pair(1, 32768))
}

// Operands that are no fractions; also where the result would be too wide.
fn operands(rt: &impl Print) -> io::Result<()> {
    for f in [
        pair(0, 5),
        pair(2, 4),
        pair(1, 0),
        pair(0, 0),
        pair(1, -2),
        pair(-2147483648, 1),
        pair(1, -2147483648),
    ] {
        every(rt, f)?;
    }
    product(rt, pair(2147483647, 1), pair(4, 2))?;
    sum(rt, pair(2147483647, 1), pair(-2147483648, 1))
}

fn products(rt: &impl Print) -> io::Result<()> {
    for (a, b) in [
        (pair(2, 3), pair(3, 2)),
        (pair(-3, 4), pair(2, 9)),
        (pair(0, 1), pair(-5, 7)),
        (pair(2147483647, 2), pair(2, 2147483647)),
        (pair(-2147483647, 1), pair(1, 2147483647)),
        (pair(1, 1), pair(-2147483647, 1)),
        (pair(46340, 1), pair(46341, 1)),
        (pair(46341, 1), pair(46341, 1)),
        (pair(1, 46340), pair(1, 46341)),
        (pair(1, 46341), pair(1, 46341)),
        (pair(1073741823, 1), pair(2, 1)),
        (pair(1073741824, 1), pair(2, 1)),
        (pair(-65536, 1), pair(32767, 1)),
        (pair(-65536, 1), pair(32768, 1)),
        (pair(-2147483647, 1), pair(2147483647, 1)),
        (pair(2147483647, 2147483646), pair(2147483646, 2147483645)),
        (pair(2147483647, 2147483646), pair(2147483647, 2147483645)),
    ] {
        product(rt, a, b)?;
    }
    Ok(())
}

fn sums(rt: &impl Print) -> io::Result<()> {
    for (a, b) in [
        (pair(1, 2), pair(1, 3)),
        (pair(1, 6), pair(1, 3)),
        (pair(-1, 2), pair(1, 2)),
        (pair(1, 65536), pair(1, 65536)),
        (pair(1, 2147483646), pair(1, 2147483646)),
        (pair(1, 2147483647), pair(2147483646, 2147483647)),
        (pair(2147483647, 2), pair(2147483647, 2)),
        (pair(2147483647, 3), pair(-2147483645, 3)),
        (pair(1, 60000), pair(1, 40000)),
        (pair(2147483646, 1), pair(1, 1)),
        (pair(2147483647, 1), pair(1, 1)),
        (pair(-2147483646, 1), pair(-1, 1)),
        (pair(-2147483647, 1), pair(-1, 1)),
        (pair(2147483647, 1), pair(-2147483647, 1)),
        (pair(1073741823, 1), pair(1, 2)),
        (pair(1073741824, 1), pair(1, 2)),
        (pair(1, 46340), pair(1, 46341)),
        (pair(1, 46341), pair(1, 46342)),
        (pair(2147483647, 2147483646), pair(2147483647, 2147483645)),
    ] {
        sum(rt, a, b)?;
    }
    Ok(())
}

// Whole numbers, fractions and 0.
fn sums_of_products(rt: &impl Print) -> io::Result<()> {
    for (s, a, b) in [
        (pair(5, 1), pair(-3, 1), pair(4, 1)),
        (pair(7, 1), pair(0, 1), pair(-9, 1)),
        (pair(2147483647, 1), pair(46340, 1), pair(-46341, 1)),
        (pair(1, 2), pair(2, 3), pair(3, 4)),
        (pair(-1, 6), pair(5, 4), pair(2, 15)),
        (pair(3, 1), pair(1, 2), pair(1, 3)),
        (pair(1, 3), pair(2, 1), pair(5, 1)),
        (pair(-1, 2), pair(3, 4), pair(2, 3)),
        (pair(5, 7), pair(0, 1), pair(1, 3)),
        (pair(0, 1), pair(1, 3), pair(0, 1)),
        (pair(-4, 1), pair(-1, 2), pair(6, 1)),
    ] {
        add_product(rt, s, a, b)?;
    }
    Ok(())
}

// What is refused, and its neighbours: an operand, also where the product is too wide, a product, a sum.
fn refused_sums(rt: &impl Print) -> io::Result<()> {
    for (s, a, b) in [
        (pair(1, 1), pair(2, 4), pair(1, 1)),
        (pair(1, 1), pair(1, 1), pair(1, 0)),
        (pair(2, 4), pair(1, 2), pair(1, 3)),
        (pair(0, 5), pair(1, 1), pair(1, 1)),
        (pair(-2147483648, 1), pair(2, 1), pair(3, 1)),
        (pair(1, 1), pair(-2147483648, 1), pair(1, 1)),
        (pair(1, 1), pair(2, 1), pair(-2147483648, 1)),
        (pair(-2147483648, 1), pair(0, 1), pair(0, 1)),
        (pair(1, 1), pair(65536, 1), pair(32768, 1)),
        (pair(-2147483647, 1), pair(65536, 1), pair(32768, 1)),
        (pair(2, 4), pair(65536, 1), pair(32768, 1)),
        (pair(1, 0), pair(65536, 1), pair(32768, 1)),
        (pair(1, 1), pair(131072, 2), pair(32768, 1)),
        (pair(1, 1), pair(65536, 1), pair(65536, 2)),
        (pair(4, 2), pair(2147483647, 1), pair(1, 1)),
        (pair(-1, 1), pair(65536, 1), pair(32768, 1)),
        (pair(1, 1), pair(65536, 1), pair(32767, 1)),
        (pair(1, 1), pair(2147483647, 1), pair(-1, 1)),
        (pair(1, 2), pair(1, 65536), pair(1, 32768)),
        (pair(2147483647, 1), pair(1, 1), pair(1, 1)),
        (pair(-2147483647, 1), pair(1, 1), pair(-1, 1)),
        (pair(2147483646, 1), pair(1, 1), pair(1, 1)),
        (pair(1, 46341), pair(1, 46342), pair(1, 1)),
        (pair(2147483647, 1), pair(1, 2), pair(1, 1)),
        (pair(1073741823, 1), pair(1, 2), pair(1, 1)),
    ] {
        add_product(rt, s, a, b)?;
    }
    Ok(())
}

fn comparisons(rt: &impl Print) -> io::Result<()> {
    for (a, b) in [
        (pair(1, 3), pair(1, 2)),
        (pair(-1, 3), pair(-1, 2)),
        (pair(5, 1), pair(5, 1)),
        (pair(0, 1), pair(-1, 2147483647)),
        (pair(1, 2147483647), pair(1, 2147483646)),
        (pair(2147483647, 1), pair(-2147483647, 1)),
        (pair(2147483646, 2147483647), pair(2147483646, 2147483647)),
        (pair(2147483647, 2147483646), pair(2147483646, 2147483645)),
        (pair(2147483645, 2147483646), pair(2147483646, 2147483647)),
        (pair(-2147483647, 2147483646), pair(-2147483646, 2147483645)),
    ] {
        compare(rt, a, b)?;
    }
    Ok(())
}

fn roundings(rt: &impl Print) -> io::Result<()> {
    for f in [
        pair(7, 2),
        pair(-7, 2),
        pair(1, 2),
        pair(3, 1),
        pair(-3, 1),
        pair(0, 1),
        pair(2147483647, 1),
        pair(-2147483647, 1),
        pair(2147483647, 2),
        pair(-2147483647, 2),
        pair(2147483646, 2147483647),
        pair(-1, 2147483647),
    ] {
        floor(rt, f)?;
        ceiling(rt, f)?;
    }
    Ok(())
}

fn main(rt: HostRuntime) -> io::Result<()> {
    document(&rt)?;
    operands(&rt)?;
    products(&rt)?;
    sums(&rt)?;
    sums_of_products(&rt)?;
    refused_sums(&rt)?;
    comparisons(&rt)?;
    roundings(&rt)
}
