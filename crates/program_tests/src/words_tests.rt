//! Words that spell a command, and words that spell none. Between two words stands `|`.

use crate::running::{run_over, run_with_store};
use std::alloc::{AllocError, Global};
use std::test::Fail;

const DOCUMENT: &[u8] = b"<http://e/a> <http://e/p> \"x\" .";

const QUERY: &[u8] = b"SELECT ?s { ?s ?p ?o }";

/// Quanta of `try`.
const ONE_QUANTUM: [&str; 9] = [
    "try|d.nt|q.rq|--quanta|1",
    "try|d.nt|q.rq|--quanta|2",
    "try|d.nt|q.rq|--quanta|9",
    "try|d.nt|q.rq|--quanta|10",
    "try|d.nt|q.rq|--quanta|99",
    "try|d.nt|q.rq|--quanta|1000",
    "try|d.nt|q.rq|--quanta|1001",
    "try|d.nt|q.rq|--quanta|9999",
    "try|d.nt|q.rq|--quanta|10000",
];

/// Words that spell no command: quanta that are none, words missing, unknown or repeated.
const NO_COMMAND: [&str; 43] = [
    "try|d.nt|q.rq|--quanta|",
    "try|d.nt|q.rq|--quanta|0",
    "try|d.nt|q.rq|--quanta|00",
    "try|d.nt|q.rq|--quanta|01",
    "try|d.nt|q.rq|--quanta|,",
    "try|d.nt|q.rq|--quanta|1,,2",
    "try|d.nt|q.rq|--quanta|,1",
    "try|d.nt|q.rq|--quanta|1,",
    "try|d.nt|q.rq|--quanta|1, 2",
    "try|d.nt|q.rq|--quanta|1 ,2",
    "try|d.nt|q.rq|--quanta|1;2",
    "try|d.nt|q.rq|--quanta|1,0",
    "try|d.nt|q.rq|--quanta|0,1",
    "try|d.nt|q.rq|--quanta|1,01",
    "try|d.nt|q.rq|--quanta|1,10001",
    "try|d.nt|q.rq|--quanta|10001,1",
    "try|d.nt|q.rq|--quanta|10001",
    "try|d.nt|q.rq|--quanta|10010",
    "try|d.nt|q.rq|--quanta|99999",
    "try|d.nt|q.rq|--quanta|100000",
    "try|d.nt|q.rq|--quanta|4294967297",
    "try|d.nt|q.rq|--quanta|18446744073709551617",
    "try|d.nt|q.rq|--quanta|+1",
    "try|d.nt|q.rq|--quanta|-1",
    "try|d.nt|q.rq|--quanta|1 ",
    "try|d.nt|q.rq|--quanta| 1",
    "try|d.nt|q.rq|--quanta|0x1",
    "try|d.nt|q.rq|--quanta|a",
    "try|d.nt|q.rq|--quanta|1.0",
    "",
    "try",
    "try|d.nt",
    "try||q.rq",
    "try|d.nt|",
    "try|d.nt|q.rq|--quanta",
    "--help",
    "Try|d.nt|q.rq",
    "ask|d.nt|q.rq",
    "try|d.nt|q.rq|1",
    "try|d.nt|q.rq|--Quanta|1",
    "try|d.nt|q.rq|--servers|1",
    "try|d.nt|q.rq|--quanta|1|--quanta|1",
    "--quanta|1|try|d.nt|q.rq",
];

/// Words of `build` and `info` that spell no command.
const NO_STORE_COMMAND: [&str; 10] = [
    "build",
    "build|d.nt",
    "build||s.sage",
    "build|d.nt|",
    "build|d.nt|s.sage|1",
    "Build|d.nt|s.sage",
    "info",
    "info|",
    "info|s.sage|s.sage",
    "Info|s.sage",
];

/// How many numbers a list of quanta has, and the status.
const LENGTHS: [(usize, u8); 5] = [(2, 0), (63, 0), (64, 0), (65, 2), (128, 2)];

#[test]
fn quanta(rt: HostRuntime) -> Result<(), Fail> {
    for &words in ONE_QUANTUM.as_slice() {
        let outcome = run_over(rt.alloc(), DOCUMENT, QUERY, words)?;
        assert_eq!(rt; outcome.status, 0, "{words}");
    }
    Ok(())
}

/// `try` with a list of so many numbers, each 1.
fn ones(alloc: Global, count: usize) -> Result<String, AllocError> {
    let mut words = String::from_str(alloc, "try|d.nt|q.rq|--quanta|1")?;
    for _ in 1..count {
        words.push_str(",1")?;
    }
    Ok(words)
}

#[test]
fn lists_of_quanta(rt: HostRuntime) -> Result<(), Fail> {
    for &(count, status) in LENGTHS.as_slice() {
        let words = ones(rt.alloc(), count)?;
        let outcome = run_over(rt.alloc(), DOCUMENT, QUERY, words.as_str())?;
        assert_eq!(rt; outcome.status, status, "{count}");
    }
    Ok(())
}

#[test]
fn no_commands(rt: HostRuntime) -> Result<(), Fail> {
    for &words in NO_COMMAND.as_slice() {
        let outcome = run_over(rt.alloc(), DOCUMENT, QUERY, words)?;
        assert!(rt; outcome.is(2, "", "sage: words\n"), "{words}");
    }
    Ok(())
}

#[test]
fn no_commands_on_a_store(rt: HostRuntime) -> Result<(), Fail> {
    for &words in NO_STORE_COMMAND.as_slice() {
        let outcome = run_with_store(rt.alloc(), DOCUMENT, b"what was there", words)?;
        assert!(rt;
            outcome.leaves(2, "", "sage: words\n", b"what was there"),
            "{words}"
        );
    }
    Ok(())
}
