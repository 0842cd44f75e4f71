//! Laws of rows of cells. Each function does nothing when it runs: its contract is the law.
ghost use Rattle.std.specs.Prelude.{ℕ, List};
ghost use Rattle.triple_store.specs.Stores.{View, IsKept};
ghost use Rattle.row_cells.specs.Data.{Data, ShowsData};
ghost use Rattle.row_cells.specs.Laws.{CellsAreValues, CellsAsk, CellsExtend, ExtendedAreCells, OthersMakeNoOdds, CellsAssign};

/// The value of a name is the term of its cell; so a pattern asks for what stands at its positions, a
/// triple that agrees makes of the cells what it makes of the row that they mean, and a cell that is
/// set binds its name.
pub fn cells_are_rows()
    ensures values { CellsAreValues }
    ensures ask { CellsAsk }
    ensures extend { CellsExtend }
    ensures are { ExtendedAreCells }
    ensures assign { CellsAssign }
{}

/// What other BINDs give changes no row.
pub fn others_make_no_odds()
    ensures { OthersMakeNoOdds }
{}

/// Data that a store shows it shows after any call, also after one that failed.
pub fn stays_told()
    ensures { (before now : View) (D : Data) → IsKept before now → ShowsData before.header before.device.image D → ShowsData now.header now.device.image D }
{}
