//! Each operator on rows that are written out.

use crate::tables::{above_one, are_equal, rows};
use row_bag::{ConditionTest, Sieve, distinct, left_join, minus, project, union};
use sparql_tree::Expr;
use std::alloc::Global;
use std::test::Fail;
use term_core::{Items, Memory, Row, Text};

/// The lists of a case, each a list of rows.
#[derive(Clone, Copy)]
struct Case<'a> {
    left: &'a str,
    right: &'a str,
    wanted: &'a str,
}

/// The case of a line: the left side, the right side and what is wanted.
fn case_of(line: &str) -> Case<'_> {
    let mut fields = line.split('|');
    Case {
        left: fields.next().unwrap_or(""),
        right: fields.next().unwrap_or(""),
        wanted: fields.next().unwrap_or(""),
    }
}

/// Whether these are the rows of a text.
fn are_rows(alloc: Global, found: &Items<Row>, wanted: &str) -> Result<bool, Memory> {
    let wanted = rows(alloc, wanted)?;
    Ok(are_equal(found.as_slice(), wanted.as_slice()))
}

/// Left joins on `?v > 1`, a case a line.
const LEFT_JOINS: &str = "s=a v=1;s=b v=2;|s=a w=x;s=b w=y;|s=a v=1;s=b v=2 w=y;
s=a v=2;|s=a w=x;s=a w=y;|s=a v=2 w=x;s=a v=2 w=y;
s=a v=1;|s=a w=x;s=a w=y;|s=a v=1;
s=a;|s=a v=2;s=a v=1;|s=a v=2;
s=a;|v=0;v=3;|s=a v=3;
v=2;v=1;||v=2;v=1;
|s=a v=2;|";

fn left_joined(alloc: Global, case: Case, condition: &Expr) -> Result<bool, Memory> {
    let left = rows(alloc, case.left)?;
    let right = rows(alloc, case.right)?;
    let found = left_join(alloc, left.as_slice(), right.as_slice(), Some(condition))?;
    are_rows(alloc, &found, case.wanted)
}

fn is_left_joined(alloc: Global, case: Case) -> Result<bool, Memory> {
    let condition = above_one(alloc)?;
    left_joined(alloc, case, &condition)
}

#[test]
fn left_joins_see_both_sides(rt: HostRuntime) -> Result<(), Fail> {
    for line in LEFT_JOINS.lines() {
        assert!(rt; is_left_joined(rt.alloc(), case_of(line))?, "{line}");
    }
    Ok(())
}

/// Differences, a case a line: no name shared, one shared, and one shared in some rows alone.
const DIFFERENCES: &str = "o=b;o=x;|x=a y=p z=b;x=a y=p z=x;|o=b;o=x;
o=b;o=x;|s=a q=p o=b;s=a q=p o=x;|
o=b;o=x;|s=a q=p o=x;|o=b;
o=b;x=b;|s=a o=b;|x=b;
s=a o=b;s=a;|o=b;|s=a;
o=b;||o=b;
|o=b;|";

fn is_difference(alloc: Global, case: Case) -> Result<bool, Memory> {
    let left = rows(alloc, case.left)?;
    let right = rows(alloc, case.right)?;
    let found = minus(alloc, left.as_slice(), right.as_slice())?;
    are_rows(alloc, &found, case.wanted)
}

#[test]
fn differences_need_a_shared_name(rt: HostRuntime) -> Result<(), Fail> {
    for line in DIFFERENCES.lines() {
        assert!(rt; is_difference(rt.alloc(), case_of(line))?, "{line}");
    }
    Ok(())
}

/// Rows with what is distinct of them, behind the second bar.
const DISTINCT: &str = "s=b;s=a;s=b;s=c;s=a;||s=b;s=a;s=c;
s=a v=1;v=1 s=a;s=a;s=a w=1;s=a;||s=a v=1;s=a;s=a w=1;
s=1;s=01;s=1;||s=1;s=01;
||";

fn is_each_once(alloc: Global, case: Case) -> Result<bool, Memory> {
    let left = rows(alloc, case.left)?;
    let found = distinct(alloc, left.as_slice())?;
    are_rows(alloc, &found, case.wanted)
}

#[test]
fn distinct_keeps_the_first_in_order(rt: HostRuntime) -> Result<(), Fail> {
    for line in DISTINCT.lines() {
        assert!(rt; is_each_once(rt.alloc(), case_of(line))?, "{line}");
    }
    Ok(())
}

/// The names of a text.
fn names(alloc: Global, text: &str) -> Result<Vec<Text>, Memory> {
    let mut names = Vec::new(alloc);
    for name in text.split(' ') {
        names.push(Text::from_str(alloc, name)?)?;
    }
    Ok(names)
}

fn projected(alloc: Global, rows: &[Row], names: &[Text]) -> Result<Items<Row>, Memory> {
    let mut parts = Items::new(alloc);
    for row in rows {
        parts.push(project(alloc, row, names)?)?;
    }
    Ok(parts)
}

/// Whether both sides together, restricted to `?v` and `?s`, are what is wanted.
fn is_projected_union(alloc: Global, case: Case) -> Result<bool, Memory> {
    let left = rows(alloc, case.left)?;
    let right = rows(alloc, case.right)?;
    let both = union(alloc, left.as_slice(), right.as_slice())?;
    is_projected(alloc, &both, case.wanted)
}

fn is_projected(alloc: Global, rows: &Items<Row>, wanted: &str) -> Result<bool, Memory> {
    let names = names(alloc, "v s v")?;
    let parts = projected(alloc, rows.as_slice(), &names)?;
    are_rows(alloc, &parts, wanted)
}

/// Two lists, with both restricted to two names.
const UNIONS: &str = "s=a w=x;s=b v=2;|s=c v=1 w=y;w=z s=a;|s=a;s=b v=2;s=c v=1;s=a;
||
v=1;||v=1;";

#[test]
fn unions_keep_order_and_projections_their_names(rt: HostRuntime) -> Result<(), Fail> {
    for line in UNIONS.lines() {
        assert!(rt; is_projected_union(rt.alloc(), case_of(line))?, "{line}");
    }
    Ok(())
}

/// How many of the rows pass `?v > 1`.
fn passing(alloc: Global, condition: &Expr, rows: &[Row]) -> Result<u64, Memory> {
    let sieve = Sieve::new(condition, ConditionTest { alloc, condition });
    let mut count = 0u64;
    for row in rows {
        if sieve.pass(row)? {
            count = count.saturating_add(1);
        }
    }
    Ok(count)
}

fn passing_of(alloc: Global, text: &str) -> Result<u64, Memory> {
    let condition = above_one(alloc)?;
    let rows = rows(alloc, text)?;
    passing(alloc, &condition, rows.as_slice())
}

#[test]
fn a_sieve_passes_what_is_true(rt: HostRuntime) -> Result<(), Fail> {
    let found = passing_of(rt.alloc(), "v=1;v=2;s=2;v=x;v=3 s=a;")?;
    assert_eq!(rt; found, 2);
    Ok(())
}
