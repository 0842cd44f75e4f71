// The words of the command line.
ghost use Rattle.std.specs.Prelude.{◌≡◌, ◌<◌, [], ◌∷◌, length, Some, IfOk, IfSome, option_map};
ghost use Rattle.std.specs.List.{filter_map};
ghost use Rattle.term_core.specs.Characters.{is_digit};
ghost use Rattle.sage.specs.Words.{value_on, quantum_of, pieces_of, pieces_left, are_quanta, quanta_of, quanta_from, try_of, build_of, info_of, command_of, Spells, AreAllowedQuanta, HasQuanta};

use std::alloc::Global;
use term_core::{Items, Memory, Text};

/// How many steps a page may take where the words do not say.
const DEFAULT_QUANTUM: u32 = 1000;

/// The most steps that a page may take.
const MOST_STEPS: u32 = 10_000;

/// The most quanta of a list.
const MOST_QUANTA: u32 = 64;

/// What the command line asks for.
#[derive(Debug, Drop)]
pub enum Command {
    /// Answers a query over a document, both files named by words, in pages of as many steps as the
    /// quanta say, one after the other and then from the first again.
    Try {
        document: Text,
        query: Text,
        quanta: Items<u32>,
    },
    /// Makes the store file of a document, both named by words.
    Build {
        document: Text,
        store: Text,
    },
    /// Tells what the header of the named store file has.
    Info {
        store: Text,
    },
}

/// Why the words give no command.
#[derive(Clone, Copy, Debug, PartialEq, Eq)]
pub enum WordsFault {
    /// The words spell no command.
    Words,
    /// There was no memory for the words of the command.
    Memory,
}

impl From<Memory> for WordsFault {
    ghost use Rattle.std.specs.Prelude.{◌≡◌};
    ghost use Rattle.sage.specs.declared.words.WordsFault.TheVariants as faults;

    ghost from_gives = { λ _ e. e ≡ faults.Memory };

    fn from(_: Memory) -> Self {
        WordsFault::Memory
    }
}

fn is_digit(b: u8) -> bool
    ensures { result ≡ is_digit b }
{
    b.is_ascii_digit()
}

/// The value of some decimal digits, as far as it may be a quantum.
fn value(digits: &[u8]) -> Option<u32>
    ensures { result ≡ value_on 0 digits.now }
{
    let mut n = 0;
    for b in digits {
        if !is_digit(*b) || n > 1000 {
            return None;
        }
        n = 10 * n + (*b - b'0') as u32;
    }
    Some(n)
}

fn quantum(word: &[u8]) -> Option<u32>
    ensures { result ≡ quantum_of word.now }
{
    match word {
        [] => None,
        [b'0', ..] => None,
        [_, ..] => match value(word) {
            Some(n) if n >= 1 && n <= MOST_STEPS => Some(n),
            _ => None,
        },
    }
}

/// What stands before the first comma, and what stands behind it if there is one.
fn cut_at_comma(word: &str) -> (&str, Option<&str>)
    ensures pieces { pieces_of word.now ≡ result.0.now ∷ pieces_left (option_map (λ rest. rest.now) result.1) }
    ensures shorter { IfSome result.1 (λ rest. length rest.now < length word.now) }
{
    match word.split_once(',') {
        Some((piece, rest)) => (piece, Some(rest)),
        None => (word, None),
    }
}

/// Whether a word is a list of quanta.
fn are_quanta(word: &str) -> bool
    ensures { result ≡ are_quanta word.now }
{
    let mut count = 0;
    let mut left = Some(word);
    'pieces: while let Some(word) = left {
        let (piece, rest) = cut_at_comma(word);
        if count == MOST_QUANTA || quantum(piece.as_bytes()).is_none() {
            return false;
        }
        count += 1;
        left = rest;
    }
    true
}

/// The quanta that the pieces of a word spell.
fn read_quanta(alloc: Global, word: &str) -> Result<Items<u32>, Memory>
    ensures { IfOk result (λ quanta. quanta ≡ filter_map quantum_of (pieces_of word.now)) }
{
    let mut quanta = Items::new(alloc);
    let mut left = Some(word);
    'pieces: while let Some(word) = left {
        let (piece, rest) = cut_at_comma(word);
        if let Some(steps) = quantum(piece.as_bytes()) {
            quanta.push(steps)?;
        }
        left = rest;
    }
    Ok(quanta)
}

fn default_quanta(alloc: Global) -> Result<Items<u32>, Memory>
    ensures { IfOk result (λ quanta. quanta ≡ 1000 ∷ []) }
{
    let mut quanta = Items::new(alloc);
    quanta.push(DEFAULT_QUANTUM)?;
    Ok(quanta)
}

/// The quanta of a list. The list is tried before memory is taken for it.
fn list_of(alloc: Global, word: &str) -> Result<Items<u32>, WordsFault>
    ensures exact { Spells result (quanta_of word.now) }
    ensures range { IfOk result AreAllowedQuanta }
{
    if are_quanta(word) {
        Ok(read_quanta(alloc, word)?)
    } else {
        Err(WordsFault::Words)
    }
}

fn quanta_among(alloc: Global, options: &[Text]) -> Result<Items<u32>, WordsFault>
    ensures exact { Spells result (quanta_from options.now) }
    ensures range { IfOk result AreAllowedQuanta }
{
    match options {
        [] => Ok(default_quanta(alloc)?),
        [option, word] => {
            if option.bytes() == b"--quanta".as_slice() {
                list_of(alloc, word.as_str())
            } else {
                Err(WordsFault::Words)
            }
        }
        _ => Err(WordsFault::Words),
    }
}

fn make_try(
    alloc: Global,
    document: &Text,
    query: &Text,
    quanta: Items<u32>,
) -> Result<Command, WordsFault>
    requires { AreAllowedQuanta quanta }
    ensures exact { Spells result (Some (Command.Try document.now query.now quanta)) }
    ensures range { IfOk result HasQuanta }
{
    let document = document.copy(alloc)?;
    let query = query.copy(alloc)?;
    Ok(Command::Try {
        document,
        query,
        quanta,
    })
}

/// Reads the words behind `try`: two names and the options.
fn read_try(
    alloc: Global,
    document: &Text,
    query: &Text,
    options: &[Text],
) -> Result<Command, WordsFault>
    ensures exact { Spells result (try_of document.now query.now options.now) }
    ensures range { IfOk result HasQuanta }
{
    if !document.bytes().is_empty() && !query.bytes().is_empty() {
        let quanta = quanta_among(alloc, options)?;
        make_try(alloc, document, query, quanta)
    } else {
        Err(WordsFault::Words)
    }
}

fn make_build(alloc: Global, document: &Text, store: &Text) -> Result<Command, WordsFault>
    ensures exact { Spells result (Some (Command.Build document.now store.now)) }
    ensures range { IfOk result HasQuanta }
{
    let document = document.copy(alloc)?;
    let store = store.copy(alloc)?;
    Ok(Command::Build { document, store })
}

/// Reads the words behind `build`: two names, and no option.
fn read_build(
    alloc: Global,
    document: &Text,
    store: &Text,
    options: &[Text],
) -> Result<Command, WordsFault>
    ensures exact { Spells result (build_of document.now store.now options.now) }
    ensures range { IfOk result HasQuanta }
{
    match options {
        [] => {
            if !document.bytes().is_empty() && !store.bytes().is_empty() {
                make_build(alloc, document, store)
            } else {
                Err(WordsFault::Words)
            }
        }
        [_, ..] => Err(WordsFault::Words),
    }
}

/// Reads the word behind `info`: a name.
fn read_info(alloc: Global, store: &Text) -> Result<Command, WordsFault>
    ensures exact { Spells result (info_of store.now) }
    ensures range { IfOk result HasQuanta }
{
    if store.bytes().is_empty() {
        return Err(WordsFault::Words);
    }
    let store = store.copy(alloc)?;
    Ok(Command::Info { store })
}

/// Reads the words that follow the program's name.
///
/// `Words` comes exactly where they spell no command: a word is missing, unknown, empty where a
/// name is wanted, repeated or one too many, or the quanta are not from 1 to 64 numbers in plain
/// decimal digits, each from 1 to 10,000, with a comma between each two.
pub fn read_words(alloc: Global, words: &[Text]) -> Result<Command, WordsFault>
    ensures exact { Spells result (command_of words.now) }
    ensures range { IfOk result HasQuanta }
{
    match words {
        [word, store] => {
            if word.bytes() == b"info".as_slice() {
                read_info(alloc, store)
            } else {
                Err(WordsFault::Words)
            }
        }
        [word, document, name, options @ ..] => {
            if word.bytes() == b"try".as_slice() {
                read_try(alloc, document, name, options)
            } else if word.bytes() == b"build".as_slice() {
                read_build(alloc, document, name, options)
            } else {
                Err(WordsFault::Words)
            }
        }
        _ => Err(WordsFault::Words),
    }
}
