//! States written as bytes.

ghost use Rattle.std.specs.Prelude.{◌≡◌, ◌≤◌, ◌++◌, ◌+◌, length, drop, take};
ghost use Rattle.term_core.specs.Ids.{number_bytes};
ghost use Rattle.plan_tree.specs.Spelling.{inner_bytes, state_bytes};
ghost use Rattle.plan_tree.specs.Trees.{inner_in, state_in};
ghost use Rattle.plan_bytes.specs.Spelled.{spelled};

use plan_tree::{Inner, State};

fn put_number(number: u32, out: &mut [u8])
    requires { 4 ≤ length out.old }
    ensures { out.new ≡ number_bytes number ++ drop 4 out.old }
{
    out[..4].copy_from_slice(&number.to_be_bytes());
}

fn put_inner(inner: &Inner, out: &mut [u8]) -> usize
    requires { length (inner_bytes (inner_in inner.now)) ≤ length out.old }
    ensures count { result ≡ length (inner_bytes (inner_in inner.now)) }
    ensures bytes { out.new ≡ inner_bytes (inner_in inner.now) ++ drop (length (inner_bytes (inner_in inner.now))) out.old }
{
    match inner {
        Inner::Idle => {
            out[0] = 0;
            1
        }
        Inner::Opened => {
            out[0] = 1;
            1
        }
        Inner::At(ids) => {
            out[0] = 2;
            put_number(ids.s, &mut out[1..]);
            put_number(ids.p, &mut out[5..]);
            put_number(ids.o, &mut out[9..]);
            13
        }
    }
}

fn put_inner_at(inner: &Inner, from: usize, out: &mut [u8]) -> usize
    requires { from + length (inner_bytes (inner_in inner.now)) ≤ length out.old }
    ensures count { result ≡ length (inner_bytes (inner_in inner.now)) }
    ensures bytes { out.new ≡ take from out.old ++ (inner_bytes (inner_in inner.now) ++ drop (from + length (inner_bytes (inner_in inner.now))) out.old) }
{
    put_inner(inner, &mut out[from..])
}

/// Writes a state to the front of the room. The calls nest as deep as the state does.
#[tactic(auto, unfolding(plan_tree::specs::Trees::state_in))]
fn put_state(state: &State, out: &mut [u8]) -> usize
    requires { length (state_bytes (state_in state.now)) ≤ length out.old }
    ensures count { result ≡ length (state_bytes (state_in state.now)) }
    ensures bytes { out.new ≡ state_bytes (state_in state.now) ++ drop (length (state_bytes (state_in state.now))) out.old }
{
    match state {
        State::Done => {
            out[0] = 0;
            1
        }
        State::Table { place } => {
            out[0] = 1;
            put_number(*place, &mut out[1..]);
            5
        }
        State::Join { left, inner } => {
            out[0] = 2;
            let used = 1 + put_state(left, &mut out[1..]);
            used + put_inner_at(inner, used, out)
        }
        State::Union { side, active } => {
            out[0] = 3;
            out[1] = *side;
            let used = put_state(active, &mut out[2..]);
            2 + used
        }
    }
}

fn put_query(state: &State, query: &[u8; 32], out: &mut [u8]) -> usize
    requires { length (query.now ++ state_bytes (state_in state.now)) ≤ length out.old }
    ensures count { result ≡ length (query.now ++ state_bytes (state_in state.now)) }
    ensures bytes { out.new ≡ (query.now ++ state_bytes (state_in state.now)) ++ drop (length (query.now ++ state_bytes (state_in state.now))) out.old }
{
    let (name, rest) = out.split_at_mut(32);
    name.copy_from_slice(query.as_slice());
    32 + put_state(state, rest)
}

fn put_data(state: &State, data_id: &[u8; 32], query: &[u8; 32], out: &mut [u8]) -> usize
    requires { length (data_id.now ++ (query.now ++ state_bytes (state_in state.now))) ≤ length out.old }
    ensures count { result ≡ length (data_id.now ++ (query.now ++ state_bytes (state_in state.now))) }
    ensures bytes { out.new ≡ (data_id.now ++ (query.now ++ state_bytes (state_in state.now))) ++ drop (length (data_id.now ++ (query.now ++ state_bytes (state_in state.now)))) out.old }
{
    let (name, rest) = out.split_at_mut(32);
    name.copy_from_slice(data_id.as_slice());
    32 + put_query(state, query, rest)
}

/// Writes the suspended plan of a state to the front of the room, and says how many bytes it has; the rest
/// of the room stays. For a state of a plan it never has more than `length_bound` of the plan. Nothing
/// is allocated.
pub fn save(state: &State, data_id: &[u8; 32], query: &[u8; 32], out: &mut [u8]) -> usize
    requires room { length (spelled data_id.now query.now (state_in state.now)) ≤ length out.old }
    ensures count { result ≡ length (spelled data_id.now query.now (state_in state.now)) }
    ensures bytes { out.new ≡ spelled data_id.now query.now (state_in state.now) ++ drop (length (spelled data_id.now query.now (state_in state.now))) out.old }
{
    out[0] = 2;
    1 + put_data(state, data_id, query, &mut out[1..])
}
