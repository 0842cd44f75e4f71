//! Texts of parts read back, and the rules that operators keep. Each law is the contract of a function that does nothing.

ghost use Rattle.part_texts.specs.ReadBack.{PartTextsReadBack, PartsReadBack};
ghost use Rattle.part_texts.specs.Rules.{QueriesKeepRules, PartsKeepRules};

/// The text of a part of an accepted query is accepted, unless it is longer or nests deeper than texts may, and means the part's
/// operators again: its triple patterns with their labels and terms, its joins and unions side by side, its conditions, what
/// it binds, and its tables, row by row.
pub fn part_texts_read_back()
    ensures { PartTextsReadBack }
{}

/// Each part of an accepted text has a text that is accepted in turn, as a query without modifiers which is cut into that one part.
pub fn parts_are_read_back()
    ensures { PartsReadBack }
{}

/// The operators of an accepted query keep the rules on scopes, and so do those of each part: no label of a blank node stands
/// in two basic graph patterns, BIND names a variable that is new, and no table has a variable twice.
pub fn accepted_operators_keep_rules()
    ensures queries { QueriesKeepRules }
    ensures parts { PartsKeepRules }
{}
