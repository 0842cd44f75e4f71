//! The states of a part's plan, and their bytes.

ghost use Rattle.std.specs.Prelude.{◌≡◌, ◌++◌, [], ◌∷◌, OnOk, option_map};
ghost use Rattle.term_core.specs.Ids.{number_bytes, ids_bytes};
ghost use Rattle.plan_tree.specs.Spelling.{state_bytes};
ghost use Rattle.pattern_page.specs.StateReading.{state_of, state_number, seen_number, ids_at, inner_at, state_at, StatesAreRead};

use term_core::{IdTriple, Memory};

/// Where a part's plan, the join of its pattern with the table of one empty row, was stopped before
/// its end.
#[derive(Clone, Copy, Debug, PartialEq, Eq)]
pub enum State {
    /// Nothing was given.
    Fresh,
    /// The empty row was taken, and no triple of it.
    Opened,
    /// The entry of this triple was the last that was given.
    At(IdTriple),
    /// All triples were given, and the table has not yet ended.
    Closing,
}

fn push_number(out: &mut Vec<u8>, number: u32) -> Result<(), Memory>
    ensures { OnOk result (out.new.items ≡ out.old.items ++ number_bytes number) }
{
    out.extend_from_slice(&number.to_be_bytes())?;
    Ok(())
}

fn push_ids(out: &mut Vec<u8>, ids: &IdTriple) -> Result<(), Memory>
    ensures { OnOk result (out.new.items ≡ out.old.items ++ ids_bytes ids.now) }
{
    push_number(out, ids.s)?;
    push_number(out, ids.p)?;
    push_number(out, ids.o)
}

/// A join whose left side is the table with its place, up to the tag of its last part.
fn push_join(out: &mut Vec<u8>, place: u32, inner: u8) -> Result<(), Memory>
    ensures { OnOk result (out.new.items ≡ out.old.items ++ 2 ∷ 1 ∷ (number_bytes place ++ inner ∷ [])) }
{
    out.extend_from_slice(&[2, 1])?;
    push_number(out, place)?;
    out.push(inner)?;
    Ok(())
}

/// Appends a state's bytes: 2 for the join, 1 for the table, the place of the table in four bytes
/// with the highest first, and the join's last part, which is 0, 1, or 2 and the numbers of a triple.
/// After an `Err` a part of them may stand at the end of `out`.
pub fn push_state(out: &mut Vec<u8>, state: &State) -> Result<(), Memory>
    ensures { OnOk result (out.new.items ≡ out.old.items ++ state_bytes (state_of state.now)) }
{
    match state {
        State::Fresh => push_join(out, 0, 0),
        State::Opened => push_join(out, 1, 1),
        State::At(ids) => {
            push_join(out, 1, 2)?;
            push_ids(out, ids)
        }
        State::Closing => push_join(out, 1, 0),
    }
}

fn read_number(bytes: &[u8]) -> Option<(u32, &[u8])>
    ensures { seen_number result ≡ state_number bytes.now }
{
    match bytes {
        [a, b, c, d, rest @ ..] => Some((u32::from_be_bytes([*a, *b, *c, *d]), rest)),
        _ => None,
    }
}

fn parse_ids(bytes: &[u8]) -> Option<IdTriple>
    ensures { result ≡ ids_at bytes.now }
{
    let (s, bytes) = read_number(bytes)?;
    let (p, bytes) = read_number(bytes)?;
    let (o, bytes) = read_number(bytes)?;
    match bytes {
        [] => Some(IdTriple { s, p, o }),
        _ => None,
    }
}

fn parse_inner(place: u32, bytes: &[u8]) -> Option<State>
    ensures { option_map state_of result ≡ inner_at place bytes.now }
{
    match place {
        0 => match bytes {
            [0] => Some(State::Fresh),
            _ => None,
        },
        1 => match bytes {
            [0] => Some(State::Closing),
            [1] => Some(State::Opened),
            [2, ids @ ..] => Some(State::At(parse_ids(ids)?)),
            _ => None,
        },
        _ => None,
    }
}

/// The state that the bytes are; None exactly where they are no state's, as `states_are_read` says:
/// a byte more or less, a place past the one row of the table, or a last part that the place cannot
/// have.
pub fn parse_state(bytes: &[u8]) -> Option<State>
    ensures { option_map state_of result ≡ state_at bytes.now }
{
    match bytes {
        [2, 1, rest @ ..] => {
            let (place, rest) = read_number(rest)?;
            parse_inner(place, rest)
        }
        _ => None,
    }
}

/// The law of `parse_state`: the bytes of a state are read as that state, and no other bytes are.
pub fn states_are_read()
    ensures { StatesAreRead }
{}
