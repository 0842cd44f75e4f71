//! The state of a plan under way.

ghost use Rattle.std.specs.Prelude.{◌≡◌, IfOk};
ghost use Rattle.plan_tree.specs.Trees.{inner_in, state_in};
ghost use Rattle.plan_tree.specs.States.{join_state, union_state};
ghost use Rattle.preempt_join.specs.States.{inner_of, state_of, StatesStand};

use crate::cursor::Cursor;
use plan_tree::{Inner, State};
use std::alloc::{AllocError, Global};
use term_core::IdTriple;

/// The state of a cursor that stands somewhere in its plan's trace stands there.
pub fn states_stand()
    ensures { StatesStand }
{}

fn inner_at(last: &Option<IdTriple>) -> Inner
    ensures { inner_in result ≡ inner_of last.now }
{
    match last {
        None => Inner::Opened,
        Some(ids) => Inner::At(*ids),
    }
}

#[tactic(auto, unfolding(plan_tree::specs::Trees::state_in))]
fn join_state(alloc: Global, left: State, inner: Inner) -> Result<State, AllocError>
    ensures { IfOk result (λ s. state_in s ≡ join_state (state_in left) (inner_in inner)) }
{
    Ok(State::Join {
        left: Box::new(alloc, left)?,
        inner,
    })
}

#[tactic(auto, unfolding(plan_tree::specs::Trees::state_in))]
fn union_state(alloc: Global, side: u8, active: State) -> Result<State, AllocError>
    ensures { IfOk result (λ s. state_in s ≡ union_state side (state_in active)) }
{
    Ok(State::Union {
        side,
        active: Box::new(alloc, active)?,
    })
}

/// The state of a cursor. The calls nest as deep as the plan does.
#[tactic(auto, unfolding(plan_tree::specs::Trees::state_in))]
pub fn state(alloc: Global, at: &Cursor) -> Result<State, AllocError>
    ensures { IfOk result (λ s. state_in s ≡ state_of at.now) }
{
    match at {
        Cursor::Table { place, ended } => {
            if *ended {
                Ok(State::Done)
            } else {
                Ok(State::Table { place: *place })
            }
        }
        Cursor::Join { left, held, .. } => match held {
            None => {
                if left.is_over() {
                    Ok(State::Done)
                } else {
                    let below = state(alloc, left)?;
                    join_state(alloc, below, Inner::Idle)
                }
            }
            Some(held) => {
                let below = state(alloc, left)?;
                join_state(alloc, below, inner_at(&held.last))
            }
        },
        Cursor::Union { active, on_second } => {
            if !*on_second {
                let below = state(alloc, active)?;
                union_state(alloc, 0, below)
            } else if active.is_over() {
                Ok(State::Done)
            } else {
                let below = state(alloc, active)?;
                union_state(alloc, 1, below)
            }
        }
    }
}
