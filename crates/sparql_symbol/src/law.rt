//! Laws of the symbols of tokens. Each is the contract of a function that does nothing.

ghost use Rattle.std.specs.Prelude.{◌≡◌, ◌++◌, List, true};
ghost use Rattle.sparql_symbol.specs.Firsts.{FindsFirst, IsDeepest};
ghost use Rattle.sparql_tree.specs.Symbols.{Lexeme};
ghost use Rattle.sparql_tree.specs.Unsupported.{first_unsupported, deepest};
ghost use Rattle.sparql_tree.specs.Words.{are_words_apart, HasEach, word_tables, word_shape, marks, operators, sign_shape};

/// The token that a refusal names is not answered, and each before it is; where none is named all are
/// answered.
pub fn named_is_first()
    ensures { (ls : List Lexeme) → FindsFirst ls (first_unsupported ls) }
{}

/// The nesting of some front of the tokens is the deepest, and no front nests deeper.
pub fn deepest_is_reached()
    ensures { (ls : List Lexeme) → IsDeepest ls (deepest ls) }
{}

/// Each word and each sign of the tables has the shape of its own row.
pub fn rows_have_their_shapes()
    ensures words { HasEach word_shape word_tables }
    ensures signs { HasEach sign_shape (marks ++ operators) }
{}

/// No word that stands in a rule of the grammar is one that is not answered.
pub fn words_are_apart()
    ensures { are_words_apart ≡ true }
{}
