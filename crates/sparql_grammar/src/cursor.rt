//! A place among symbols.

ghost use Rattle.std.specs.Prelude.{◌≡◌, length, IfOk};
ghost use Rattle.sparql_grammar.specs.Parser as spec;
ghost use Rattle.sparql_grammar.specs.Reads.{Reads, same, nothing};

use crate::fault::Fault;
use sparql_tree::{Shape, Symbol};
use std::alloc::Global;
use std::marker::Model;
use term_core::{Memory, Text};

/// A place among symbols. Contracts see the symbols from there on.
#[derive(Drop)]
pub struct Cursor<'a> {
    left: &'a [Symbol],
}

impl<'a> Model for Cursor<'a> {
    ghost use Rattle.std.specs.Prelude.{List};
    ghost use Rattle.sparql_tree.specs.declared.symbol.Symbol.{Symbol};

    ghost Value = { List Symbol };

    ghost view = { λ c. c.left.now };
}

impl<'a> Cursor<'a> {
    /// The place before the first of the symbols.
    pub fn new(symbols: &'a [Symbol]) -> Cursor<'a>
        ensures { result ≡ symbols.now }
    {
        Cursor { left: symbols }
    }

    /// How many symbols are left.
    pub fn left(&self) -> usize
        ensures { result ≡ length self.now }
    {
        self.left.len()
    }

    /// What the next symbol is, if there is one.
    #[tactic(auto, unfolding(crate::specs::Parser::head))]
    pub fn peek(&self) -> Option<Shape>
        ensures { result ≡ spec.head self.now }
    {
        if self.left.is_empty() {
            None
        } else {
            Some(self.left[0].shape)
        }
    }

    /// Goes past the next symbol, if there is one.
    #[tactic(auto, unfolding(crate::specs::Parser::next))]
    pub fn advance(&mut self)
        ensures { self.new ≡ spec.next self.old }
    {
        if !self.left.is_empty() {
            self.left = &self.left[1..];
        }
    }

    /// The bytes of the next symbol's value; none where no symbol is left.
    #[tactic(auto, unfolding(crate::specs::Parser::first_value))]
    pub fn word(&self) -> &'a [u8]
        ensures { result.now ≡ spec.first_value self.now }
    {
        if self.left.is_empty() {
            &[]
        } else {
            self.left[0].value.bytes()
        }
    }

    /// A copy of the next symbol's value.
    #[tactic(auto, unfolding(crate::specs::Parser::first_value))]
    pub fn value(&self, alloc: Global) -> Result<Text, Memory>
        ensures { IfOk result (λ text. text ≡ spec.first_value self.now) }
    {
        if self.left.is_empty() {
            Text::from_str(alloc, "")
        } else {
            self.left[0].value.copy(alloc)
        }
    }

    /// Goes past the next symbol, and gives its value.
    pub fn take(&mut self, alloc: Global) -> Result<Text, Memory>
        ensures value { IfOk result (λ text. text ≡ spec.first_value self.old) }
        ensures moved { IfOk result (λ text. self.new ≡ spec.next self.old) }
    {
        let text = self.value(alloc)?;
        self.advance();
        Ok(text)
    }

    /// Goes past `(`.
    #[tactic(auto, unfolding(crate::specs::Parser::open_paren))]
    pub fn open(&mut self) -> Result<(), Fault>
        ensures { Reads nothing (spec.open_paren self.old) result self.new }
    {
        match self.peek() {
            Some(Shape::Open) => {
                self.advance();
                Ok(())
            }
            _ => Err(Fault::NotAQuery),
        }
    }

    /// Goes past `)`.
    #[tactic(auto, unfolding(crate::specs::Parser::close_paren))]
    pub fn close(&mut self) -> Result<(), Fault>
        ensures { Reads nothing (spec.close_paren self.old) result self.new }
    {
        match self.peek() {
            Some(Shape::Close) => {
                self.advance();
                Ok(())
            }
            _ => Err(Fault::NotAQuery),
        }
    }

    /// Goes past `{`.
    #[tactic(auto, unfolding(crate::specs::Parser::open_brace))]
    pub fn open_brace(&mut self) -> Result<(), Fault>
        ensures { Reads nothing (spec.open_brace self.old) result self.new }
    {
        match self.peek() {
            Some(Shape::OpenBrace) => {
                self.advance();
                Ok(())
            }
            _ => Err(Fault::NotAQuery),
        }
    }

    /// Goes past `}`.
    #[tactic(auto, unfolding(crate::specs::Parser::close_brace))]
    pub fn close_brace(&mut self) -> Result<(), Fault>
        ensures { Reads nothing (spec.close_brace self.old) result self.new }
    {
        match self.peek() {
            Some(Shape::CloseBrace) => {
                self.advance();
                Ok(())
            }
            _ => Err(Fault::NotAQuery),
        }
    }

    /// Goes past `AS`.
    #[tactic(auto, unfolding(crate::specs::Parser::as_word))]
    pub fn as_word(&mut self) -> Result<(), Fault>
        ensures { Reads nothing (spec.as_word self.old) result self.new }
    {
        match self.peek() {
            Some(Shape::As) => {
                self.advance();
                Ok(())
            }
            _ => Err(Fault::NotAQuery),
        }
    }

    /// The name of a variable.
    #[tactic(auto, unfolding(crate::specs::Parser::name))]
    pub fn name(&mut self, alloc: Global) -> Result<Text, Fault>
        ensures { Reads same (spec.name self.old) result self.new }
    {
        match self.peek() {
            Some(Shape::Var) => Ok(self.take(alloc)?),
            _ => Err(Fault::NotAQuery),
        }
    }
}
