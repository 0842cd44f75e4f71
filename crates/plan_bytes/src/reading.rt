//! States read from bytes.

ghost use Rattle.std.specs.Prelude.{◌≡◌, ◌≤◌, IfOk, IfErr, Some, None, drop, length, Err};
ghost use Rattle.plan_tree.specs.Reached.{can_end_in_row, IsWholeShape};
ghost use Rattle.plan_tree.specs.StateLaws.{HasFewRows};
ghost use Rattle.plan_tree.specs.Trees.{plan_in, state_in};
ghost use Rattle.plan_bytes.specs.Reading.{number_at, triple_at, inner_at, place_at, join_at, union_at, state_at, whole_at, seen_number, seen_inner, seen_state};
ghost use Rattle.plan_bytes.specs.Refusals.{HeadIs, IsRefused};
ghost use Rattle.plan_bytes.specs.Spelled.{spelled};

use crate::head::{HeadFault, check_head};
use plan_tree::{Inner, Plan, State};
use std::alloc::{AllocError, Global};
use term_core::IdTriple;

/// Why bytes are refused as a suspended plan, in the order in which it is looked for.
#[derive(Clone, Copy, Debug, PartialEq, Eq)]
pub enum PlanFault {
    /// There are fewer than 66 bytes.
    Short,
    /// Byte 0 is not 2.
    Version,
    /// Bytes 1 to 32 are not the data's name.
    ForeignData,
    /// Bytes 33 to 64 are not the name of the query's text.
    ForeignQuery,
    /// The bytes from 65 on spell no state of the plan's shape.
    Shape,
    /// The state is of the plan's shape, and the plan does not reach it over the data: the join whose
    /// scan has that number is the first that strays.
    StrayCursor { scan: u32 },
    /// The state is the end, behind which nothing comes.
    NoMoreRows,
    /// The allocator had no room.
    Memory,
}

fn read_number(bytes: &[u8]) -> Option<(u32, &[u8])>
    ensures { seen_number result ≡ number_at bytes.now }
{
    match bytes {
        [a, b, c, d, rest @ ..] => Some((u32::from_be_bytes([*a, *b, *c, *d]), rest)),
        _ => None,
    }
}

/// Whether the entry behind a state can be a row, by the state alone.
#[tactic(auto, unfolding(plan_tree::specs::Trees::state_in))]
fn ends_in_row(state: &State) -> bool
    ensures { result ≡ can_end_in_row (state_in state.now) }
{
    match state {
        State::Done => false,
        State::Table { place } => *place != 0,
        State::Join { inner, .. } => match inner {
            Inner::Idle => false,
            Inner::Opened => false,
            Inner::At(_) => true,
        },
        State::Union { active, .. } => ends_in_row(active),
    }
}

fn read_triple(bytes: &[u8]) -> Option<(Inner, &[u8])>
    ensures { seen_inner result ≡ triple_at bytes.now }
{
    let (s, bytes) = read_number(bytes)?;
    let (p, bytes) = read_number(bytes)?;
    let (o, bytes) = read_number(bytes)?;
    Some((Inner::At(IdTriple { s, p, o }), bytes))
}

/// A join's last part. One that has taken a row stands only behind a left state that can end in one.
fn read_inner(can: bool, bytes: &[u8]) -> Option<(Inner, &[u8])>
    ensures { seen_inner result ≡ inner_at can bytes.now }
{
    match bytes {
        [0, rest @ ..] => Some((Inner::Idle, rest)),
        [1, rest @ ..] => {
            if can {
                Some((Inner::Opened, rest))
            } else {
                None
            }
        }
        [2, rest @ ..] => { if can { read_triple(rest) } else { None } }
        _ => None,
    }
}

/// The place of a table with so many rows.
#[tactic(auto, unfolding(plan_tree::specs::Trees::state_in))]
fn read_place(rows: usize, bytes: &[u8]) -> Option<(State, &[u8])>
    ensures { seen_state result ≡ place_at rows bytes.now }
{
    let (place, rest) = read_number(bytes)?;
    if place as usize <= rows {
        Some((State::Table { place }, rest))
    } else {
        None
    }
}

#[tactic(auto, unfolding(plan_tree::specs::Trees::state_in))]
fn read_join<'a>(
    alloc: Global,
    below: State,
    bytes: &'a [u8],
) -> Result<Option<(State, &'a [u8])>, AllocError>
    ensures { IfOk result (λ found. seen_state found ≡ join_at (Some (state_in below, bytes.now))) }
{
    match read_inner(ends_in_row(&below), bytes) {
        None => Ok(None),
        Some((inner, rest)) => {
            let left = Box::new(alloc, below)?;
            Ok(Some((State::Join { left, inner }, rest)))
        }
    }
}

#[tactic(auto, unfolding(plan_tree::specs::Trees::state_in))]
fn read_union<'a>(
    alloc: Global,
    side: u8,
    active: State,
    bytes: &'a [u8],
) -> Result<Option<(State, &'a [u8])>, AllocError>
    ensures { IfOk result (λ found. seen_state found ≡ union_at side (Some (state_in active, bytes.now))) }
{
    let active = Box::new(alloc, active)?;
    Ok(Some((State::Union { side, active }, bytes)))
}

/// The state that the bytes begin with, and the bytes behind it. The calls nest as deep as the plan does.
#[tactic(auto, unfolding(plan_tree::specs::Trees::plan_in))]
fn read_state<'a>(
    alloc: Global,
    plan: &Plan,
    bytes: &'a [u8],
) -> Result<Option<(State, &'a [u8])>, AllocError>
    ensures { IfOk result (λ found. seen_state found ≡ state_at (plan_in plan.now) bytes.now) }
{
    match plan {
        Plan::Table { rows, .. } => match bytes {
            [1, rest @ ..] => Ok(read_place(rows.len(), rest)),
            _ => Ok(None),
        },
        Plan::Join { left, .. } => match bytes {
            [2, rest @ ..] => match read_state(alloc, left, rest)? {
                None => Ok(None),
                Some((below, rest)) => read_join(alloc, below, rest),
            },
            _ => Ok(None),
        },
        Plan::Union(first, second) => match bytes {
            [3, 0, rest @ ..] => match read_state(alloc, first, rest)? {
                None => Ok(None),
                Some((active, rest)) => read_union(alloc, 0, active, rest),
            },
            [3, 1, rest @ ..] => match read_state(alloc, second, rest)? {
                None => Ok(None),
                Some((active, rest)) => read_union(alloc, 1, active, rest),
            },
            _ => Ok(None),
        },
        Plan::Filter { inner, .. } => read_state(alloc, inner, bytes),
        Plan::Bind { inner, .. } => read_state(alloc, inner, bytes),
        Plan::Project { inner, .. } => read_state(alloc, inner, bytes),
    }
}

/// The state that the bytes are, to their last; None where they are none.
#[tactic(auto, unfolding(plan_tree::specs::Trees::state_in))]
fn read_whole(alloc: Global, plan: &Plan, bytes: &[u8]) -> Result<Option<State>, AllocError>
    ensures state { IfOk result (λ found. (s : _) → found ≡ Some s → whole_at (plan_in plan.now) bytes.now ≡ Some (state_in s)) }
    ensures none { IfOk result (λ found. found ≡ None → whole_at (plan_in plan.now) bytes.now ≡ None) }
{
    match bytes {
        [0] => Ok(Some(State::Done)),
        _ => match read_state(alloc, plan, bytes)? {
            None => Ok(None),
            Some((state, rest)) => {
                if rest.is_empty() {
                    Ok(Some(state))
                } else {
                    Ok(None)
                }
            }
        },
    }
}

fn skip(bytes: &[u8], count: usize) -> &[u8]
    requires { count ≤ length bytes.now }
    ensures { result.now ≡ drop count bytes.now }
{
    &bytes[count..]
}

/// The refusal of a plan for what stands before its state.
fn head_fault(fault: HeadFault) -> PlanFault
    ensures { (plan : _) (bytes data_name text_name : _) → HeadIs bytes data_name text_name (Err fault)
        → IsRefused plan bytes data_name text_name result }
{
    match fault {
        HeadFault::Short => PlanFault::Short,
        HeadFault::Version => PlanFault::Version,
        HeadFault::ForeignData => PlanFault::ForeignData,
        HeadFault::ForeignQuery => PlanFault::ForeignQuery,
    }
}

/// The state that a suspended plan of this data and this query spells. A state that is accepted has
/// the plan's shape: whether the plan reaches it over the data is for the one who goes on with it to
/// see, and so are `StrayCursor` and `NoMoreRows`. The refusal is the first cause in the order of
/// `PlanFault`; the single byte 0 behind the names is the end, `Done`. The calls nest as deep as the
/// plan does.
pub fn parse(
    alloc: Global,
    bytes: &[u8],
    plan: &Plan,
    data_id: &[u8; 32],
    query: &[u8; 32],
) -> Result<State, PlanFault>
    requires rows { HasFewRows (plan_in plan.now) }
    ensures state { IfOk result (λ s. IsWholeShape (plan_in plan.now) (state_in s) × (bytes.now ≡ spelled data_id.now query.now (state_in s))) }
    ensures refused { IfErr result (IsRefused (plan_in plan.now) bytes.now data_id.now query.now) }
{
    if let Err(fault) = check_head(bytes, data_id, query) {
        return Err(head_fault(fault));
    }
    match read_whole(alloc, plan, skip(bytes, 65)) {
        Err(_) => Err(PlanFault::Memory),
        Ok(None) => Err(PlanFault::Shape),
        Ok(Some(state)) => Ok(state),
    }
}
