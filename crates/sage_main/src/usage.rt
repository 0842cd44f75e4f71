// What the program says of itself.

/// The answer to `--version`.
pub const VERSION: &str = "sage 0.1.0\n";

/// The answer to `--help`.
pub const USAGE: &str = "sage: a SPARQL query server that can be interrupted, with its client

Usage:
  sage try DATA QUERY [--quanta Q,..]
  sage build DATA STORE
  sage info STORE
  sage --help
  sage --version

Commands:
  try    answers the query in the file QUERY over the N-Triples document in the
         file DATA. The answer goes to standard output as tab-separated values.
         Standard error gets the number of pages, the number of plan steps and
         the length in bytes of the longest suspended plan.
  build  makes the store file STORE of the N-Triples document in the file DATA,
         and writes what info writes. A file STORE that is there is replaced once
         DATA has been read whole.
  info   writes six lines that tell what is in the store file STORE: its format,
         the number of terms and of triples, the length in bytes of the longest
         record, the number of blocks, and the name of the data: SHA-256 of its
         triples in order, in hexadecimal.

Options of try:
  --quanta Q,..    steps of each page: from 1 to 64 numbers from 1 to 10000,
                   walked round (default 1000)

Examples:
  sage try examples/catalogue.nt examples/works-of-euler.rq --quanta 2
  sage build examples/catalogue.nt catalogue.sage

Exit statuses:
  0  the answer was written
  1  there was not enough memory
  2  the words are no command
  3  a file is not there, or could not be read or written
  4  DATA is no document that can be read, or is too large
  5  STORE is no store file
  6  QUERY is no query that can be answered
  9  the output failed
";
