//! Pages of a part: a page begins where the bytes say that the page before gave, and takes at most a
//! quantum of steps.

ghost use Rattle.std.specs.Prelude.{◌≡◌, ◌≤◌, ◌<◌, ◌+◌, ◌-◌, ◌++◌, ℕ, length, [], ◌∷◌, List, option_map, Err, IfSome, OnOk, IfOk, IfErr};
ghost use Rattle.sha2.specs.Sha256.{sha256};
ghost use Rattle.term_core.specs.declared.term.Term.{Term as Terms};
ghost use Rattle.term_core.specs.declared.term.Triple.{Triple};
ghost use Rattle.term_core.specs.declared.pattern.IdTriple.{IdTriple as Ids};
ghost use Rattle.term_core.specs.Mappings.{value};
ghost use Rattle.sage_outside.specs.Causes.{Rose};
ghost use Rattle.term_core.specs.Patterns.{label_name, position_of};
ghost use Rattle.plan_tree.specs.Trace.{put as put_name, bind_at, rows_of, steps};
ghost use Rattle.store_image.specs.Table.{IsBelow, term_numbered};
ghost use Rattle.triple_store.specs.Stores.{View, IsKept, IsShown, IsStoreOf};
ghost use Rattle.triple_store.specs.Ranges.{IsInStore};
ghost use Rattle.pattern_page.specs.Part.{pattern_place_text, select_all_text, part_plan};
ghost use Rattle.pattern_page.specs.StateReading.{state_of};
ghost use Rattle.pattern_page.specs.PagesOf.{IsPart, IsSeen, IsAt, part_seen, range_entry, GivesAt, IsMore, cursor_state, saved_at, spelled_by, IsBehind, IsNamed, IsRead, IsPlaced, IsRefusal, MayRefuse, Loads, Starts, GivesStep, IsStretchFrom, IsPageFrom, AnswersPage};

use crate::state::{State, parse_state, push_state};
use nt_text::push_term;
use sage_outside::{Blocks, StoreFault};
use sha2::{Digest, Sha256};
use std::alloc::Global;
use term_core::{IdTriple, Items, Memory, Pattern, Place, Row, Term, Text, TextFault};
use triple_store::{Range, Store};

/// The first byte of a suspended plan.
const VERSION: u8 = 2;

/// What every page of a part needs beside the store: the pattern, the places of its triples, and the
/// two names that the bytes of its plans begin with.
#[derive(Drop)]
pub struct Part<'p> {
    pattern: &'p Pattern,
    range: Range,
    steps: u64,
    data_name: [u8; 32],
    text_name: [u8; 32],
}

/// A page: the rows of its steps in their order, how many steps it took, and the bytes that the next
/// page begins with; none where the plan came to its end.
#[derive(Drop)]
pub struct Page {
    pub rows: Items<Row>,
    pub steps: u32,
    pub next: Option<Vec<u8>>,
}

/// Why there is no page.
#[derive(Clone, Copy, Debug, PartialEq, Eq)]
pub enum PageFault {
    /// The bytes are none of a state of the part's plan over the data.
    Plan,
    /// The store gave no answer.
    Store(StoreFault),
    /// Memory ran out.
    Memory,
}

impl From<StoreFault> for PageFault {
    ghost use Rattle.std.specs.Prelude.{◌≡◌};
    ghost use Rattle.pattern_page.specs.declared.page.PageFault.TheVariants as faults;

    ghost from_gives = { λ x y. y ≡ faults.Store x };

    fn from(fault: StoreFault) -> PageFault {
        PageFault::Store(fault)
    }
}

impl From<Memory> for PageFault {
    ghost use Rattle.pattern_page.specs.declared.page.PageFault.TheVariants as faults;

    ghost from_gives = { λ x y. y ≡ faults.Memory };

    fn from(_: Memory) -> PageFault {
        PageFault::Memory
    }
}

/// Where a page stands in the part's plan.
#[derive(Clone, Copy, Debug, PartialEq, Eq)]
enum Cursor {
    /// Nothing was given.
    Fresh,
    /// The empty row was taken.
    Opened,
    /// The entry of the triple at this place of the range was the last.
    After { place: u32 },
    /// All triples were given, and the end of the table was not.
    Closing,
    /// All was given.
    Done,
}

/// An entry of the plan, a row or nothing, and where the plan stands after it.
#[derive(Drop)]
struct Step {
    row: Option<Row>,
    cursor: Cursor,
}

/// Steps taken one after the other: their rows, how many they were, and where the plan stands.
#[derive(Drop)]
struct Stretch {
    rows: Items<Row>,
    steps: u32,
    cursor: Cursor,
}

fn push_place(out: &mut Vec<u8>, place: &Place) -> Result<(), Memory>
    ensures { OnOk result (out.new.items ≡ out.old.items ++ pattern_place_text place.now) }
{
    match place {
        Place::Var(name) => {
            out.push(b'?')?;
            out.extend_from_slice(name.bytes())?;
            Ok(())
        }
        Place::Blank(label) => {
            out.extend_from_slice(b"_:")?;
            out.extend_from_slice(label.bytes())?;
            Ok(())
        }
        Place::Term(term) => push_term(out, term),
    }
}

/// The text of the part: the query that selects all variables of the pattern.
fn write_part(alloc: Global, pattern: &Pattern) -> Result<Vec<u8>, Memory>
    ensures { IfOk result (λ text. text.items ≡ select_all_text pattern.now) }
{
    let mut out = Vec::from_slice(alloc, b"SELECT * { ")?;
    push_place(&mut out, &pattern.subject)?;
    out.push(b' ')?;
    push_place(&mut out, &pattern.predicate)?;
    out.push(b' ')?;
    push_place(&mut out, &pattern.object)?;
    out.extend_from_slice(b" . }")?;
    Ok(out)
}

fn text_id(alloc: Global, pattern: &Pattern) -> Result<[u8; 32], Memory>
    ensures { IfOk result (λ name. name ≡ sha256 (select_all_text pattern.now)) }
{
    let text = write_part(alloc, pattern)?;
    let mut hasher = Sha256::new();
    hasher.update(text.as_slice());
    Ok(hasher.finalize())
}

/// The name of a blank node of the query.
fn name_of_label(alloc: Global, label: &Text) -> Result<Text, Memory>
    ensures { IfOk result (λ name. name ≡ label_name label.now) }
{
    let mut name = String::from_str(alloc, "_:")?;
    name.push_str(label.as_str())?;
    match Text::from_bytes(alloc, name.as_str().as_bytes()) {
        Ok(name) => Ok(name),
        Err(TextFault::Memory) => Err(Memory),
        Err(TextFault::NotUtf8 { .. }) => unreachable!(),
    }
}

/// Binds the name to the term, or gives nothing where it has another value.
fn put(alloc: Global, mut row: Row, name: Text, term: &Term) -> Result<Option<Row>, Memory>
    ensures { IfOk result (λ r. r ≡ put_name row name term.now (value row name)) }
{
    match row.get(name.bytes()) {
        None => {
            row.set(name, term.copy(alloc)?)?;
            Ok(Some(row))
        }
        Some(other) => {
            if *other == *term {
                Ok(Some(row))
            } else {
                Ok(None)
            }
        }
    }
}

/// Binds the name to the term with that rank, or gives nothing where it has another value.
fn bind_name<B: Blocks>(
    alloc: Global,
    store: &mut Store<B>,
    name: Text,
    id: u32,
    row: Row,
) -> Result<Option<Row>, PageFault>
    requires { id < store.old.header.terms }
    ensures kept { IsKept store.old store.new }
    ensures refused { IfErr result (λ e. IsRefusal e store.old store.new) }
    ensures found { (terms : List Terms) (ids : List Ids) → IsShown store.old terms ids
        → IfOk result (λ r. r ≡ put_name row name (term_numbered terms id) (value row name)) }
{
    let term = store.term(alloc, id)?;
    Ok(put(alloc, row, name, &term)?)
}

/// Binds the name at a place of the pattern, if it has one, to the term with that rank. The term is
/// read only where it is bound.
fn bind<B: Blocks>(
    alloc: Global,
    store: &mut Store<B>,
    place: &Place,
    id: u32,
    row: Option<Row>,
) -> Result<Option<Row>, PageFault>
    requires { id < store.old.header.terms }
    ensures kept { IsKept store.old store.new }
    ensures refused { IfErr result (λ e. IsRefusal e store.old store.new) }
    ensures found { (terms : List Terms) (ids : List Ids) → IsShown store.old terms ids
        → IfOk result (λ r. r ≡ bind_at (position_of place.now) (term_numbered terms id) row) }
{
    match row {
        None => Ok(None),
        Some(row) => match place {
            Place::Var(name) => bind_name(alloc, store, name.copy(alloc)?, id, row),
            Place::Blank(label) => bind_name(alloc, store, name_of_label(alloc, label)?, id, row),
            Place::Term(_) => Ok(Some(row)),
        },
    }
}

/// The bytes behind a front; none where they do not begin with it.
fn strip<'b>(bytes: &'b [u8], front: &[u8]) -> Option<&'b [u8]>
    ensures { IsBehind front.now bytes.now (option_map (λ b. b.now) result) }
{
    if bytes.len() < front.len() {
        return None;
    }
    let (head, rest) = bytes.split_at(front.len());
    if head == front { Some(rest) } else { None }
}

/// The place behind one of so many.
fn next_place(place: u32, count: u32) -> u32
    requires { place < count }
    ensures { result ≡ place + 1 }
{
    place + 1
}

/// Adds the row of an entry, if it has one.
fn push_row(rows: &mut Items<Row>, row: Option<Row>) -> Result<(), Memory>
    ensures { OnOk result (rows.new ≡ rows.old ++ rows_of (row ∷ [])) }
{
    match row {
        None => Ok(()),
        Some(row) => rows.push(row),
    }
}

impl<'p> Part<'p> {
    /// The part of a pattern over a store. The names and the places are found here, once for all
    /// pages.
    pub fn new<B: Blocks>(
        alloc: Global,
        store: &mut Store<B>,
        pattern: &'p Pattern,
    ) -> Result<Part<'p>, PageFault>
        ensures kept { IsKept store.old store.new }
        ensures refused { IfErr result (λ e. IsRefusal e store.old store.new) }
        ensures within { IfOk result (λ part. IsInStore store.old part.range) }
        ensures part { (D : List Triple) → IsStoreOf store.old D → IfOk result (λ part. IsPart D pattern.now store.new part) }
    {
        let range = store.range_of(alloc, pattern)?;
        let steps = range.len() as u64 + 3;
        let data_name = *store.data_id();
        let text_name = text_id(alloc, pattern)?;
        Ok(Part {
            pattern,
            range,
            steps,
            data_name,
            text_name,
        })
    }

    /// How many steps the part's plan takes: one before its triples, one a triple, and two at the end.
    pub fn steps(&self) -> u64
        ensures { (D : List Triple) (pattern : Pattern) (store : View) → IsPart D pattern store self.now → result ≡ steps D (part_plan pattern) }
    {
        self.steps
    }

    /// The solution that a triple makes, or nothing where a name of the pattern would get two values.
    fn solve<B: Blocks>(
        &self,
        alloc: Global,
        store: &mut Store<B>,
        triple: IdTriple,
    ) -> Result<Option<Row>, PageFault>
        requires { IsBelow store.old.header.terms triple }
        ensures kept { IsKept store.old store.new }
        ensures refused { IfErr result (λ e. IsRefusal e store.old store.new) }
        ensures found { (terms : List Terms) (ids : List Ids) → IsSeen store.old self.now terms ids
            → IfOk result (λ row. row ≡ range_entry (part_seen self.now terms ids) triple) }
    {
        let row = Some(Row::empty(alloc));
        let row = bind(alloc, store, &self.pattern.subject, triple.s, row)?;
        let row = bind(alloc, store, &self.pattern.predicate, triple.p, row)?;
        bind(alloc, store, &self.pattern.object, triple.o, row)
    }

    /// The step of the triple at a place of the range, or past them.
    fn step_to<B: Blocks>(
        &self,
        alloc: Global,
        store: &mut Store<B>,
        place: u32,
    ) -> Result<Step, PageFault>
        requires { IsInStore store.old self.now.range }
        ensures kept { IsKept store.old store.new }
        ensures refused { IfErr result (λ e. IsRefusal e store.old store.new) }
        ensures within { IfOk result (λ step. IsAt self.now step.cursor) }
        ensures found { (terms : List Terms) (ids : List Ids) → IsSeen store.old self.now terms ids
            → IfOk result (GivesAt (part_seen self.now terms ids) place) }
    {
        if place < self.range.len() {
            let triple = store.triple(&self.range, place)?;
            let row = self.solve(alloc, store, triple)?;
            Ok(Step {
                row,
                cursor: Cursor::After { place },
            })
        } else {
            Ok(Step {
                row: None,
                cursor: Cursor::Closing,
            })
        }
    }

    /// The next step from a cursor; none at the end.
    fn step<B: Blocks>(
        &self,
        alloc: Global,
        store: &mut Store<B>,
        cursor: Cursor,
    ) -> Result<Option<Step>, PageFault>
        requires range { IsInStore store.old self.now.range }
        requires within { IsAt self.now cursor }
        ensures kept { IsKept store.old store.new }
        ensures refused { IfErr result (λ e. IsRefusal e store.old store.new) }
        ensures within { IfOk result (λ step. IfSome step (λ x. IsAt self.now x.cursor)) }
        ensures found { (terms : List Terms) (ids : List Ids) → IsSeen store.old self.now terms ids
            → IfOk result (GivesStep (part_seen self.now terms ids) cursor) }
    {
        match cursor {
            Cursor::Fresh => Ok(Some(Step {
                row: None,
                cursor: Cursor::Opened,
            })),
            Cursor::Opened => Ok(Some(self.step_to(alloc, store, 0)?)),
            Cursor::After { place } => {
                let next = next_place(place, self.range.len());
                Ok(Some(self.step_to(alloc, store, next)?))
            }
            Cursor::Closing => Ok(Some(Step {
                row: None,
                cursor: Cursor::Done,
            })),
            Cursor::Done => Ok(None),
        }
    }

    /// Takes one step more; false where none is left.
    fn extend<B: Blocks>(
        &self,
        alloc: Global,
        store: &mut Store<B>,
        stretch: &mut Stretch,
    ) -> Result<bool, PageFault>
        requires range { IsInStore store.old self.now.range }
        requires within { IsAt self.now stretch.old.cursor }
        requires room { stretch.old.steps < 4294967295 }
        ensures kept { IsKept store.old store.new }
        ensures refused { IfErr result (λ e. IsRefusal e store.old store.new) }
        ensures within { OnOk result (IsAt self.now stretch.new.cursor) }
        ensures counted { OnOk result (stretch.new.steps ≤ stretch.old.steps + 1) }
        ensures found { (terms : List Terms) (ids : List Ids) → IsSeen store.old self.now terms ids
            → IfOk result (IsMore (part_seen self.now terms ids) stretch.old stretch.new) }
    {
        match self.step(alloc, store, stretch.cursor)? {
            None => Ok(false),
            Some(step) => {
                push_row(&mut stretch.rows, step.row)?;
                stretch.steps += 1;
                stretch.cursor = step.cursor;
                Ok(true)
            }
        }
    }

    /// Takes steps from a cursor, as many as the quantum lets, up to the end.
    fn run<B: Blocks>(
        &self,
        alloc: Global,
        store: &mut Store<B>,
        start: Cursor,
        quantum: u32,
    ) -> Result<Stretch, PageFault>
        requires range { IsInStore store.old self.now.range }
        requires within { IsAt self.now start }
        ensures kept { IsKept store.old store.new }
        ensures refused { IfErr result (λ e. IsRefusal e store.old store.new) }
        ensures within { IfOk result (λ stretch. IsAt self.now stretch.cursor) }
        ensures found { (terms : List Terms) (ids : List Ids) → IsSeen store.old self.now terms ids
            → IfOk result (IsStretchFrom (part_seen self.now terms ids) start quantum) }
    {
        let mut stretch = Stretch {
            rows: Items::new(alloc),
            steps: 0,
            cursor: start,
        };
        'steps: for _ in 0..quantum {
            if !self.extend(alloc, store, &mut stretch)? {
                break;
            }
        }
        Ok(stretch)
    }

    /// The state where a cursor stands; none at the end.
    fn state<B: Blocks>(
        &self,
        store: &mut Store<B>,
        cursor: Cursor,
    ) -> Result<Option<State>, StoreFault>
        requires range { IsInStore store.old self.now.range }
        requires within { IsAt self.now cursor }
        ensures kept { IsKept store.old store.new }
        ensures refused { IfErr result (λ e. IsRefusal (PageFault.Store e) store.old store.new) }
        ensures found { (terms : List Terms) (ids : List Ids) → IsSeen store.old self.now terms ids
            → IfOk result (λ state. option_map state_of state ≡ cursor_state (part_seen self.now terms ids) cursor) }
    {
        match cursor {
            Cursor::Fresh => Ok(Some(State::Fresh)),
            Cursor::Opened => Ok(Some(State::Opened)),
            Cursor::After { place } => Ok(Some(State::At(store.triple(&self.range, place)?))),
            Cursor::Closing => Ok(Some(State::Closing)),
            Cursor::Done => Ok(None),
        }
    }

    /// The bytes of a state, behind the version and the two names; none where there is no state.
    fn spell(&self, alloc: Global, state: Option<State>) -> Result<Option<Vec<u8>>, Memory>
        ensures { IfOk result (λ next. option_map (λ v. v.items) next ≡ option_map (spelled_by self.now) (option_map state_of state)) }
    {
        match state {
            None => Ok(None),
            Some(state) => {
                let mut out = Vec::from_slice(alloc, &[VERSION])?;
                out.extend_from_slice(&self.data_name)?;
                out.extend_from_slice(&self.text_name)?;
                push_state(&mut out, &state)?;
                Ok(Some(out))
            }
        }
    }

    /// The bytes from which a page goes on where a cursor stands; none at the end.
    fn save<B: Blocks>(
        &self,
        alloc: Global,
        store: &mut Store<B>,
        cursor: Cursor,
    ) -> Result<Option<Vec<u8>>, PageFault>
        requires range { IsInStore store.old self.now.range }
        requires within { IsAt self.now cursor }
        ensures kept { IsKept store.old store.new }
        ensures refused { IfErr result (λ e. IsRefusal e store.old store.new) }
        ensures found { (terms : List Terms) (ids : List Ids) → IsSeen store.old self.now terms ids
            → IfOk result (λ next. option_map (λ v. v.items) next ≡ saved_at (part_seen self.now terms ids) cursor) }
    {
        let state = self.state(store, cursor)?;
        Ok(self.spell(alloc, state)?)
    }

    /// The bytes of the state, behind the version and the two names, where these are the part's.
    fn strip_names<'b>(&self, bytes: &'b [u8]) -> Option<&'b [u8]>
        ensures { IsNamed self.now.data_name self.now.text_name bytes.now (option_map (λ b. b.now) result) }
    {
        let rest = strip(bytes, &[VERSION])?;
        let rest = strip(rest, &self.data_name)?;
        strip(rest, &self.text_name)
    }

    /// The state that the bytes of a suspended plan spell; none where they are of no state.
    fn read(&self, bytes: &[u8]) -> Option<State>
        ensures { IsRead self.now bytes.now result }
    {
        parse_state(self.strip_names(bytes)?)
    }

    /// The cursor of a state; none where its triple is not of the range. The triple is looked up,
    /// and nothing before it is given again.
    fn place<B: Blocks>(
        &self,
        store: &mut Store<B>,
        state: State,
    ) -> Result<Option<Cursor>, StoreFault>
        requires range { IsInStore store.old self.now.range }
        ensures kept { IsKept store.old store.new }
        ensures refused { IfErr result (λ e. IsRefusal (PageFault.Store e) store.old store.new) }
        ensures within { IfOk result (λ cursor. IfSome cursor (IsAt self.now)) }
        ensures found { (terms : List Terms) (ids : List Ids) → IsSeen store.old self.now terms ids
            → IfOk result (IsPlaced (part_seen self.now terms ids) state) }
    {
        match state {
            State::Fresh => Ok(Some(Cursor::Fresh)),
            State::Opened => Ok(Some(Cursor::Opened)),
            State::At(triple) => match store.place_of(&self.range, &triple)? {
                None => Ok(None),
                Some(place) => Ok(Some(Cursor::After { place })),
            },
            State::Closing => Ok(Some(Cursor::Closing)),
        }
    }

    /// The cursor that stands where the bytes say; none where they are of no state of the plan.
    fn load<B: Blocks>(
        &self,
        store: &mut Store<B>,
        bytes: &[u8],
    ) -> Result<Option<Cursor>, StoreFault>
        requires range { IsInStore store.old self.now.range }
        ensures kept { IsKept store.old store.new }
        ensures refused { IfErr result (λ e. IsRefusal (PageFault.Store e) store.old store.new) }
        ensures within { IfOk result (λ cursor. IfSome cursor (IsAt self.now)) }
        ensures found { (terms : List Terms) (ids : List Ids) → IsSeen store.old self.now terms ids
            → IfOk result (Loads (part_seen self.now terms ids) bytes.now) }
    {
        match self.read(bytes) {
            None => Ok(None),
            Some(state) => self.place(store, state),
        }
    }

    /// The cursor where a page begins.
    fn start<B: Blocks>(
        &self,
        store: &mut Store<B>,
        next: Option<&[u8]>,
    ) -> Result<Option<Cursor>, StoreFault>
        requires range { IsInStore store.old self.now.range }
        ensures kept { IsKept store.old store.new }
        ensures refused { IfErr result (λ e. IsRefusal (PageFault.Store e) store.old store.new) }
        ensures within { IfOk result (λ cursor. IfSome cursor (IsAt self.now)) }
        ensures found { (terms : List Terms) (ids : List Ids) → IsSeen store.old self.now terms ids
            → IfOk result (Starts (part_seen self.now terms ids) (option_map (λ b. b.now) next.entry)) }
    {
        match next {
            None => Ok(Some(Cursor::Fresh)),
            Some(bytes) => self.load(store, bytes),
        }
    }

    /// The page of at most so many steps from a cursor.
    fn page_from<B: Blocks>(
        &self,
        alloc: Global,
        store: &mut Store<B>,
        start: Cursor,
        quantum: u32,
    ) -> Result<Page, PageFault>
        requires range { IsInStore store.old self.now.range }
        requires within { IsAt self.now start }
        ensures kept { IsKept store.old store.new }
        ensures refused { IfErr result (λ e. IsRefusal e store.old store.new) }
        ensures found { (terms : List Terms) (ids : List Ids) → IsSeen store.old self.now terms ids
            → IfOk result (IsPageFrom (part_seen self.now terms ids) start quantum) }
    {
        let stretch = self.run(alloc, store, start, quantum)?;
        let next = self.save(alloc, store, stretch.cursor)?;
        Ok(Page {
            rows: stretch.rows,
            steps: stretch.steps,
            next,
        })
    }

    /// The page of at most `quantum` steps from the beginning, or from where the bytes say that the
    /// page before gave; it takes fewer steps only at the end of the plan.
    ///
    /// Over a store of some data `Plan` comes exactly where the bytes are those of no state of the plan:
    /// bytes that no page gave are taken too, where a page could have given them.
    pub fn page<B: Blocks>(
        &self,
        alloc: Global,
        store: &mut Store<B>,
        next: Option<&[u8]>,
        quantum: u32,
    ) -> Result<Page, PageFault>
        requires range { IsInStore store.old self.now.range }
        requires some { 1 ≤ quantum }
        ensures kept { IsKept store.old store.new }
        ensures refused { IfErr result (λ e. MayRefuse e store.old store.new) }
        ensures page { (D : List Triple) (pattern : Pattern) → IsPart D pattern store.old self.now
            → AnswersPage D pattern (option_map (λ b. b.now) next.entry) quantum result }
    {
        match self.start(store, next)? {
            None => Err(PageFault::Plan),
            Some(cursor) => self.page_from(alloc, store, cursor, quantum),
        }
    }
}
