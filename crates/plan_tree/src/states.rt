//! Laws of states, of their bytes and of pages. Each function does nothing when it runs: its contract is the law.
ghost use Rattle.plan_tree.specs.OnePattern.{PatternTraces, PatternStatesStand, NoOtherStates, EntriesAreKept, RowsAreSolutions, SelectedRowsAnswer};
ghost use Rattle.plan_tree.specs.Reached.{ReachedStands};
ghost use Rattle.plan_tree.specs.StateLaws.{PagesJoin, PartsJoin, OneRun, OneRunOf, OnePage, PagesTakeSteps, OneShape, ReachedAreShaped, ShapesAreShort, OneState, OneStateAt, StatesAreBelow, OtherPlaces, QuantaGoRound, Bounded, OneSpelling, NextsArePlaced, PartsAreFixed, NamesAreTold, StatesOfSets};

/// The pages of a plan, followed from the first to the one after which nothing is left, have the rows
/// of the whole trace in their order, and as many steps, whatever the quanta: no row is lost or
/// given twice. There are no more pages than steps, and the suspended plans between them are short.
pub fn pages_join()
    ensures join { PagesJoin }
{}

/// For quanta of at least one step there are such pages, and no others: what a page has is settled by
/// the data, the plan, the text, the place and the quantum.
pub fn one_run()
    ensures run { OneRun }
    ensures page { OnePage }
{}

/// Several parts, followed one after the other and each to its end, have one list of pages under quanta
/// of at least one step, and these have the rows and the steps of each part in their order.
pub fn parts_join()
    ensures run { OneRunOf }
    ensures join { PartsJoin }
{}

/// A page that begins before the end takes at least one step, and as many as its quantum unless the
/// plan ends first.
pub fn pages_take_steps()
    ensures steps { PagesTakeSteps }
{}

/// A list of quanta that is walked round gives its own quanta in their order and then the same again,
/// so that the laws above hold of it.
pub fn quanta_go_round()
    ensures round { QuantaGoRound }
{}

/// After each number of entries up to the plan's steps stands one state, at the end the one that is
/// done; none stands anywhere else, and none at two places.
pub fn one_state()
    ensures one { OneState }
    ensures whole { OneStateAt }
    ensures below { StatesAreBelow }
    ensures apart { OtherPlaces }
{}

/// The bytes of a suspended plan: how many there may be, what stands where, that bytes tell the data
/// and the text as far as their SHA-256 digests do, that no two states of a plan are spelled alike,
/// and that no bytes name two places of its trace.
pub fn bytes_of_states()
    ensures bounded { Bounded }
    ensures parts { PartsAreFixed }
    ensures names { NamesAreTold }
    ensures spelling { OneSpelling }
    ensures placed { NextsArePlaced }
{}

/// A state is reached, by cases of the plan and with the entry behind it, exactly where it stands at
/// some place before the end; and the entry behind it is the one before that place.
pub fn reached_states()
    ensures stands { ReachedStands }
    ensures shaped { ReachedAreShaped }
{}

/// The bytes of states of a plan's shape, whatever the data: no two are alike, and none is longer than
/// those that the plan's states have.
pub fn bytes_of_shapes()
    ensures spelling { OneShape }
    ensures bounded { ShapesAreShort }
{}

/// Two lists of the same triples have the same states, bytes and pages.
pub fn states_of_sets()
    ensures alike { StatesOfSets }
{}

/// The plan of one pattern: its entries, its states and where they stand.
pub fn pattern_states()
    ensures entries { PatternTraces }
    ensures stand { PatternStatesStand }
    ensures others { NoOtherStates }
{}

/// The rows of the plan of one pattern are the solutions that its triples make; restricted to the
/// selected variables they answer the query (SPARQL 1.1, 18.5).
pub fn pattern_rows()
    ensures kept { EntriesAreKept }
    ensures rows { RowsAreSolutions }
    ensures answer { SelectedRowsAnswer }
{}
