//! All pages of a part, each from the bytes that the page before gave.

ghost use Rattle.std.specs.Prelude.{◌≡◌, ◌≤◌, ◌<◌, ◌+◌, ◌++◌, List, flat_map, option_map, OnOk, IfOk, IfErr};
ghost use Rattle.term_core.specs.declared.term.Triple.{Triple};
ghost use Rattle.term_core.specs.declared.pattern.Pattern.{Pattern as Patterns};
ghost use Rattle.plan_tree.specs.Pages.{IsPage, AreQuanta, walked};
ghost use Rattle.triple_store.specs.Stores.{IsKept};
ghost use Rattle.triple_store.specs.Ranges.{IsInStore};
ghost use Rattle.pattern_page.specs.Part.{part_plan, select_all_text};
ghost use Rattle.pattern_page.specs.Results.{line};
ghost use Rattle.pattern_page.specs.PagesOf.{IsPart, IsRefusal, MayRefuse, page_of};
ghost use Rattle.pattern_page.specs.Followed.{AreMore, Begins, IsTurned, IsGiven, AreFollowed, next_in};

use crate::page::{Page, PageFault, Part};
use crate::tsv::push_line;
use sage_outside::Blocks;
use std::alloc::Global;
use term_core::{Memory, Row, Text};
use triple_store::Store;

/// What pages cost: how many they were, how many steps they took together, and how many bytes the
/// longest plan had that went from a page to the next; 0 where there was one page.
#[derive(Clone, Copy, Debug, PartialEq, Eq)]
pub struct Counts {
    pub pages: u64,
    pub steps: u64,
    pub longest: u64,
}

/// The pages so far, and the bytes from which the next one goes on; none before the first page.
#[derive(Drop)]
struct Walk {
    counts: Counts,
    next: Option<Vec<u8>>,
}

fn push_lines(out: &mut Vec<u8>, names: &[Text], rows: &[Row]) -> Result<(), Memory>
    ensures { OnOk result (out.new.items ≡ out.old.items ++ flat_map (line names.now) rows.now) }
{
    for row in rows {
        push_line(out, names, row)?;
    }
    Ok(())
}

/// The counts with a page more. Counts stand still at 2^64 - 1, which no run over a store reaches.
fn add(counts: Counts, page: &Page) -> Counts
    ensures { counts.pages < 18446744073709551615 → counts.steps + page.now.steps < 18446744073709551616
        → AreMore counts result (page_of page.now) }
{
    let length = match &page.next {
        None => 0,
        Some(bytes) => bytes.len() as u64,
    };
    Counts {
        pages: counts.pages.saturating_add(1),
        steps: counts.steps.saturating_add(page.steps as u64),
        longest: counts.longest.max(length),
    }
}

fn slice_of(next: &Option<Vec<u8>>) -> Option<&[u8]>
    ensures { option_map (λ b. b.now) result ≡ option_map (λ v. v.items) next.now }
{
    match next {
        None => None,
        Some(bytes) => Some(bytes.as_slice()),
    }
}

/// The page that comes next.
fn turn<B: Blocks>(
    alloc: Global,
    store: &mut Store<B>,
    part: &Part,
    quantum: u32,
    walk: &Walk,
) -> Result<Page, PageFault>
    requires range { IsInStore store.old part.now.range }
    requires some { 1 ≤ quantum }
    ensures kept { IsKept store.old store.new }
    ensures refused { IfErr result (λ e. MayRefuse e store.old store.new) }
    ensures page { (D : List Triple) (pattern : Patterns) → IsPart D pattern store.old part.now
        → Begins D pattern walk.now.counts.steps (next_in walk.now)
        → IsTurned D pattern walk.now.counts.steps quantum result }
{
    part.page(alloc, store, slice_of(&walk.next), quantum)
}

/// Gives the next page: its lines are written and it is counted. Answers whether more are to come.
fn give<B: Blocks>(
    alloc: Global,
    store: &mut Store<B>,
    part: &Part,
    names: &[Text],
    quantum: u32,
    walk: &mut Walk,
    out: &mut Vec<u8>,
) -> Result<bool, PageFault>
    requires range { IsInStore store.old part.now.range }
    requires some { 1 ≤ quantum }
    ensures kept { IsKept store.old store.new }
    ensures refused { IfErr result (λ e. MayRefuse e store.old store.new) }
    ensures page { (D : List Triple) (pattern : Patterns) → IsPart D pattern store.old part.now
        → Begins D pattern walk.old.counts.steps (next_in walk.old) → walk.old.counts.pages ≤ walk.old.counts.steps
        → IsGiven D pattern quantum names.now walk.old walk.new out.old.items out.new.items result }
{
    let page = turn(alloc, store, part, quantum, walk)?;
    push_lines(out, names, page.rows.as_slice())?;
    walk.counts = add(walk.counts, &page);
    walk.next = page.next;
    Ok(walk.next.is_some())
}

/// The quantum of a page, counted from 0, where the list is walked round.
fn quantum_of(quanta: &[u32], page: u64) -> u32
    requires { AreQuanta quanta.now }
    ensures walked { result ≡ walked quanta.now page }
    ensures some { 1 ≤ result }
{
    quanta[(page % quanta.len() as u64) as usize]
}

/// Gives all pages of the part, of as many steps each but the last as the quanta say, which are walked
/// round, and appends a line to `out` for each row as it comes, with the terms of `names`. Each page but
/// the first goes on from the bytes that the page before gave, and from nothing else. After an `Err` a
/// part of the lines may stand at the end of `out`.
///
/// Over a store of some data `Plan` never comes.
pub fn follow_pages<B: Blocks>(
    alloc: Global,
    store: &mut Store<B>,
    part: &Part,
    names: &[Text],
    quanta: &[u32],
    out: &mut Vec<u8>,
) -> Result<Counts, PageFault>
    requires range { IsInStore store.old part.now.range }
    requires some { AreQuanta quanta.now }
    ensures kept { IsKept store.old store.new }
    ensures refused { IfErr result (λ e. MayRefuse e store.old store.new) }
    ensures pages { (D : List Triple) (pattern : Patterns) → IsPart D pattern store.old part.now
        → AreFollowed D pattern quanta.now names.now out.old.items out.new.items result }
{
    let counts = Counts {
        pages: 0,
        steps: 0,
        longest: 0,
    };
    let mut walk = Walk { counts, next: None };
    'pages: for page in 0..part.steps() {
        let quantum = quantum_of(quanta, page);
        if !give(alloc, store, part, names, quantum, &mut walk, out)? {
            break;
        }
    }
    Ok(walk.counts)
}
