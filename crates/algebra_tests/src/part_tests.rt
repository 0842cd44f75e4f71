//! The text of each part of the queries of the other tables, read again: it is cut into one part, which is that part.

use crate::showing::part_text;
use crate::{algebra_tests, split_tests};
use sparql_algebra::{Part, prepare};
use std::alloc::Global;
use std::test::Fail;

/// The only part, or how many there are.
fn only_part(alloc: Global, parts: &[Part]) -> Result<String, Fail> {
    match parts {
        [part] => part_text(alloc, part),
        _ => Ok(format!(in alloc; "{} parts", parts.len())?),
    }
}

/// The part that a text is cut into, or why there is none.
fn read(alloc: Global, text: &[u8]) -> Result<String, Fail> {
    match prepare(alloc, text) {
        Ok(split) => only_part(alloc, split.parts.as_slice()),
        Err(fault) => Ok(format!(in alloc; "{fault:?}")?),
    }
}

/// Whether the part is what its text is cut into.
fn is_read_back(alloc: Global, part: &Part) -> Result<bool, Fail> {
    let found = read(alloc, part.text.bytes())?;
    let wanted = part_text(alloc, part)?;
    Ok(found.as_str() == wanted.as_str())
}

/// Whether there are parts, and each is what its text is cut into.
fn are_read_back(alloc: Global, parts: &[Part]) -> Result<bool, Fail> {
    for part in parts {
        if !is_read_back(alloc, part)? {
            return Ok(false);
        }
    }
    Ok(!parts.is_empty())
}

/// Whether a query is cut into parts that are read back.
fn is_kept(alloc: Global, query: &[u8]) -> Result<bool, Fail> {
    match prepare(alloc, query) {
        Ok(split) => are_read_back(alloc, split.parts.as_slice()),
        Err(_) => Ok(false),
    }
}

#[test]
fn parts_of_algebra_are_read_back(rt: HostRuntime) -> Result<(), Fail> {
    for &(query, _) in algebra_tests::QUERIES.as_slice() {
        assert_eq!(rt; is_kept(rt.alloc(), query)?, true);
    }
    Ok(())
}

#[test]
fn parts_of_splits_are_read_back(rt: HostRuntime) -> Result<(), Fail> {
    for &(query, _) in split_tests::QUERIES.as_slice() {
        assert_eq!(rt; is_kept(rt.alloc(), query)?, true);
    }
    Ok(())
}
