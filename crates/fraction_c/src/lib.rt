// The arithmetic of `fraction` for C: operands by value, the result through pointers, and as what is returned 0 or 01's
// number of the refusal, on which nothing is stored. include/fraction.h declares the functions.
#![tactic(auto)]

ghost use Rattle.std.specs.Prelude.{◌≡◌};
ghost use Rattle.arithmetic.specs.Fraction.{product_of, sum_of, compare_of, floor_of, ceiling_of, arithmetic_says, comparison_says, rounding_says};
ghost use Rattle.fraction_c.specs.Stored.{Stored, pair, sign_of};

use fraction::{ArithmeticError, Fraction, NotAFraction};
use std::cmp::Ordering;

// An operand.
fn pair(num: i32, den: i32) -> Fraction
    ensures { result ≡ pair num den }
{
    Fraction { num, den }
}

// The answer of a product or a sum.
fn store(answer: Result<Fraction, ArithmeticError>, num: &mut i32, den: &mut i32) -> u8
    ensures { Stored (arithmetic_says answer) result
        (pair num.old den.old) (pair num.new den.new) }
{
    match answer {
        Ok(f) => {
            *num = f.num;
            *den = f.den;
            0
        }
        Err(refusal) => refusal.into(),
    }
}

// The answer of floor or ceiling.
fn store_whole(answer: Result<i32, NotAFraction>, whole: &mut i32) -> u8
    ensures { Stored (rounding_says answer) result whole.old whole.new }
{
    match answer {
        Ok(n) => {
            *whole = n;
            0
        }
        Err(refusal) => ArithmeticError::from(refusal).into(),
    }
}

// The answer of a comparison: -1 for less, 0 for equal, 1 for greater.
fn store_order(answer: Result<Ordering, NotAFraction>, order: &mut i32) -> u8
    ensures { Stored (sign_of (comparison_says answer)) result order.old order.new }
{
    store_whole(answer.map(|o| o as i32), order)
}

// Kept: here and below numbers in place of fractions and results, as C passes and takes them.
#[unsafe(no_mangle)]
pub extern "C" fn fraction_product(
    a_num: i32,
    a_den: i32,
    b_num: i32,
    b_den: i32,
    num: &mut i32,
    den: &mut i32,
) -> u8
    ensures { Stored (product_of (pair a_num a_den) (pair b_num b_den)) result
        (pair num.old den.old) (pair num.new den.new) }
{
    let a = pair(a_num, a_den);
    let b = pair(b_num, b_den);
    store(fraction::product(a, b), num, den)
}

#[unsafe(no_mangle)]
pub extern "C" fn fraction_sum(
    a_num: i32,
    a_den: i32,
    b_num: i32,
    b_den: i32,
    num: &mut i32,
    den: &mut i32,
) -> u8
    ensures { Stored (sum_of (pair a_num a_den) (pair b_num b_den)) result
        (pair num.old den.old) (pair num.new den.new) }
{
    let a = pair(a_num, a_den);
    let b = pair(b_num, b_den);
    store(fraction::sum(a, b), num, den)
}

#[unsafe(no_mangle)]
pub extern "C" fn fraction_compare(
    a_num: i32,
    a_den: i32,
    b_num: i32,
    b_den: i32,
    order: &mut i32,
) -> u8
    ensures { Stored (sign_of (compare_of (pair a_num a_den) (pair b_num b_den))) result
        order.old order.new }
{
    let a = pair(a_num, a_den);
    let b = pair(b_num, b_den);
    store_order(fraction::compare(a, b), order)
}

#[unsafe(no_mangle)]
pub extern "C" fn fraction_floor(num: i32, den: i32, whole: &mut i32) -> u8
    ensures { Stored (floor_of (pair num den)) result whole.old whole.new }
{
    store_whole(fraction::floor(pair(num, den)), whole)
}

#[unsafe(no_mangle)]
pub extern "C" fn fraction_ceiling(num: i32, den: i32, whole: &mut i32) -> u8
    ensures { Stored (ceiling_of (pair num den)) result whole.old whole.new }
{
    store_whole(fraction::ceiling(pair(num, den)), whole)
}
