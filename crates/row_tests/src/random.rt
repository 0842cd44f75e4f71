//! Small tables made from a fixed seed: each operator gives what the standard's loops in loops give.

use crate::nested::{firsts, joined, subtracted};
use crate::tables::{above_one, are_equal, bind};
use row_bag::{distinct, join, left_join, minus};
use sparql_tree::Expr;
use std::alloc::Global;
use std::test::Fail;
use term_core::{Items, Memory, Row};

/// Numbers from a fixed seed, by a linear congruence.
#[derive(Drop)]
struct Numbers {
    state: u64,
}

/// A number below `end`.
fn below(numbers: &mut Numbers, end: u64) -> u64 {
    numbers.state = numbers
        .state
        .wrapping_mul(6364136223846793005)
        .wrapping_add(1442695040888963407);
    (numbers.state >> 33).checked_rem(end).unwrap_or(0)
}

/// The digit of a number below 3.
fn digit(n: u64) -> &'static str {
    match n {
        0 => "0",
        1 => "1",
        _ => "2",
    }
}

/// A row in which each of the names is bound three times of four.
fn row(alloc: Global, numbers: &mut Numbers, names: &str) -> Result<Row, Memory> {
    let mut row = Row::empty(alloc);
    for name in names.split(' ') {
        let value = digit(below(numbers, 3));
        if below(numbers, 4) > 0 {
            bind(alloc, &mut row, name, value)?;
        }
    }
    Ok(row)
}

/// A table of up to seven rows.
fn table(alloc: Global, numbers: &mut Numbers, names: &str) -> Result<Items<Row>, Memory> {
    let mut rows = Items::new(alloc);
    for _row in 0..below(numbers, 8) {
        rows.push(row(alloc, numbers, names)?)?;
    }
    Ok(rows)
}

fn is_join(alloc: Global, left: &[Row], right: &[Row]) -> Result<bool, Memory> {
    let found = join(alloc, left, right)?;
    let wanted = joined(alloc, left, right, None, false)?;
    Ok(are_equal(found.as_slice(), wanted.as_slice()))
}

fn is_left_join(
    alloc: Global,
    left: &[Row],
    right: &[Row],
    condition: Option<&Expr>,
) -> Result<bool, Memory> {
    let found = left_join(alloc, left, right, condition)?;
    let wanted = joined(alloc, left, right, condition, true)?;
    Ok(are_equal(found.as_slice(), wanted.as_slice()))
}

fn is_minus(alloc: Global, left: &[Row], right: &[Row]) -> Result<bool, Memory> {
    let found = minus(alloc, left, right)?;
    let wanted = subtracted(alloc, left, right)?;
    Ok(are_equal(found.as_slice(), wanted.as_slice()))
}

fn is_distinct(alloc: Global, rows: &[Row]) -> Result<bool, Memory> {
    let found = distinct(alloc, rows)?;
    let wanted = firsts(alloc, rows)?;
    Ok(are_equal(found.as_slice(), wanted.as_slice()))
}

/// Which of the operators give what they should on two tables.
fn letters(
    alloc: Global,
    left: &[Row],
    right: &[Row],
    condition: &Expr,
) -> Result<[bool; 5], Memory> {
    Ok([
        is_join(alloc, left, right)?,
        is_left_join(alloc, left, right, None)?,
        is_left_join(alloc, left, right, Some(condition))?,
        is_minus(alloc, left, right)?,
        is_distinct(alloc, left)?,
    ])
}

/// Which of the operators give what they should on two new tables.
fn round(alloc: Global, numbers: &mut Numbers, condition: &Expr) -> Result<[bool; 5], Memory> {
    let left = table(alloc, numbers, "s v w")?;
    let right = table(alloc, numbers, "s v x")?;
    letters(alloc, left.as_slice(), right.as_slice(), condition)
}

/// The first round that gives something else, if there is one.
fn first_wrong(alloc: Global) -> Result<Option<u64>, Memory> {
    let condition = above_one(alloc)?;
    let mut numbers = Numbers { state: 20261201 };
    for number in 0..500 {
        if round(alloc, &mut numbers, &condition)? != [true; 5] {
            return Ok(Some(number));
        }
    }
    Ok(None)
}

#[test]
fn operators_are_the_loops_in_loops(rt: HostRuntime) -> Result<(), Fail> {
    assert_eq!(rt; first_wrong(rt.alloc())?, None);
    Ok(())
}
