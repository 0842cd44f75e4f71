//! RDF terms and triples, and the order on terms.

ghost use Rattle.std.specs.Prelude.{◌≡◌, ◌^◌, ◌-◌, [], min, MatchResult, IfOk};
ghost use Rattle.std.specs.Cmp.{IsTotalOrder};
ghost use Rattle.term_core.specs.Order.{rank_of, text_of, size_of, term_cmp, IsAllowed};
ghost use Rattle.term_core.specs.Texts.{xsd_string};
ghost use Rattle.term_core.specs.Spelling.{lang_string};

use crate::{Memory, RDF_LANG_STRING, Text, XSD_STRING};
use std::alloc::Global;
use std::cmp::Ordering;
use std::hash::{Hash, Hasher};

/// An RDF term (RDF 1.1 Concepts, section 3.1).
#[derive(Debug, Drop)]
pub enum Term {
    /// An IRI (section 3.2), without its angle brackets.
    Iri(Text),
    /// A blank node (section 3.4), by its label without `_:`.
    Blank(Text),
    /// A literal (section 3.3). The language tag `lang` is empty where there is none.
    Literal {
        lexical: Text,
        datatype: Text,
        lang: Text,
    },
}

/// A subject, a predicate and an object. Whether they make an RDF triple (RDF 1.1 Concepts,
/// section 3.1) is what `check_triple` tells.
#[derive(Debug, Drop)]
pub struct Triple {
    pub subject: Term,
    pub predicate: Term,
    pub object: Term,
}

/// The subject is a literal, or the predicate is no IRI.
#[derive(Clone, Copy, Debug, PartialEq, Eq)]
pub struct NotATriple;

impl Term {
    /// An equal term with room of its own.
    pub fn copy(&self, alloc: Global) -> Result<Term, Memory>
        ensures { IfOk result (λ t. t ≡ self.now) }
    {
        match self {
            Term::Iri(text) => Ok(Term::Iri(text.copy(alloc)?)),
            Term::Blank(text) => Ok(Term::Blank(text.copy(alloc)?)),
            Term::Literal {
                lexical,
                datatype,
                lang,
            } => Ok(Term::Literal {
                lexical: lexical.copy(alloc)?,
                datatype: datatype.copy(alloc)?,
                lang: lang.copy(alloc)?,
            }),
        }
    }

    /// The literal of a lexical form and a datatype (RDF 1.1 Concepts, section 3.3), without a tag.
    pub fn typed(alloc: Global, lexical: Text, datatype: Text) -> Result<Term, Memory>
        ensures { IfOk result (λ term. term ≡ Term.Literal lexical datatype []) }
    {
        let lang = Text::from_str(alloc, "")?;
        Ok(Term::Literal {
            lexical,
            datatype,
            lang,
        })
    }

    /// The literal of a string without a tag (RDF 1.1 Concepts, section 3.3, simple literals).
    pub fn plain(alloc: Global, lexical: Text) -> Result<Term, Memory>
        ensures { IfOk result (λ term. term ≡ Term.Literal lexical xsd_string []) }
    {
        let datatype = Text::from_str(alloc, XSD_STRING)?;
        Term::typed(alloc, lexical, datatype)
    }

    /// The literal of a string with this tag (RDF 1.1 Concepts, section 3.3, language-tagged strings).
    pub fn tagged(alloc: Global, lexical: Text, lang: Text) -> Result<Term, Memory>
        ensures { IfOk result (λ term. term ≡ Term.Literal lexical lang_string lang) }
    {
        let datatype = Text::from_str(alloc, RDF_LANG_STRING)?;
        Ok(Term::Literal {
            lexical,
            datatype,
            lang,
        })
    }

    /// The place of the term's kind in the order of terms: 0 for a blank node, 1 for an IRI, 2 for a literal.
    pub fn kind(&self) -> u8
        ensures { result ≡ rank_of self.now }
    {
        match self {
            Term::Blank(_) => 0,
            Term::Iri(_) => 1,
            Term::Literal { .. } => 2,
        }
    }

    /// The label, the IRI or the lexical form, which after the kind decides the order of terms first.
    pub fn text(&self) -> &str
        ensures { result.now ≡ text_of self.now }
    {
        match self {
            Term::Blank(label) => label.as_str(),
            Term::Iri(iri) => iri.as_str(),
            Term::Literal { lexical, .. } => lexical.as_str(),
        }
    }
}

/// The bytes of the IRI or label, or of lexical form, datatype and tag together. The sum stops at
/// the greatest `usize`.
pub fn size(term: &Term) -> usize
    ensures { result ≡ min (size_of term.now) (2 ^ 64 - 1) }
{
    match term {
        Term::Iri(text) => text.bytes().len(),
        Term::Blank(text) => text.bytes().len(),
        Term::Literal {
            lexical,
            datatype,
            lang,
        } => {
            let tagged = datatype.bytes().len().saturating_add(lang.bytes().len());
            lexical.bytes().len().saturating_add(tagged)
        }
    }
}

/// Whether a triple is one of RDF (RDF 1.1 Concepts, section 3.1): refused exactly where the
/// subject is a literal or the predicate is no IRI.
pub fn check_triple(t: &Triple) -> Result<(), NotATriple>
    ensures { MatchResult result (λ _. IsAllowed t.now) (λ _. ¬ IsAllowed t.now) }
{
    match (&t.subject, &t.predicate) {
        (Term::Literal { .. }, _) => Err(NotATriple),
        (_, Term::Iri(_)) => Ok(()),
        _ => Err(NotATriple),
    }
}

/// The order on terms: blank nodes by label, then IRIs, then literals by lexical form, datatype and
/// tag, each by bytes. It refines the order of kinds in SPARQL 1.1, section 15.1.
pub fn compare(a: &Term, b: &Term) -> Ordering
    ensures { result ≡ term_cmp a.now b.now }
{
    match (a, b) {
        (Term::Iri(a), Term::Iri(b)) => a.as_str().cmp(b.as_str()),
        (Term::Blank(a), Term::Blank(b)) => a.as_str().cmp(b.as_str()),
        (
            Term::Literal {
                lexical,
                datatype,
                lang,
            },
            Term::Literal {
                lexical: lexical_b,
                datatype: datatype_b,
                lang: lang_b,
            },
        ) => match lexical.as_str().cmp(lexical_b.as_str()) {
            Ordering::Equal => datatype
                .as_str()
                .cmp(datatype_b.as_str())
                .then(lang.as_str().cmp(lang_b.as_str())),
            Ordering::Less => Ordering::Less,
            Ordering::Greater => Ordering::Greater,
        },
        _ => a.kind().cmp(&b.kind()),
    }
}

/// `compare` is a total order, and equal terms alone tie.
pub fn compare_is_total()
    ensures total { IsTotalOrder term_cmp }
    ensures exact { (a b : Term) → term_cmp a b ≡ Ordering.Equal → a ≡ b }
{}

impl PartialEq for Term {
    ghost use Rattle.std.specs.Ordering.{eq_by_cmp};
    ghost use Rattle.std.specs.Cmp.{partial_equiv_from_equiv, eq_by_cmp_equiv};
    ghost use Rattle.term_core.specs.Order.{term_cmp};
    ghost use Rattle.term_core.specs.OrderLaws.{terms_total};

    ghost eq = { eq_by_cmp term_cmp };

    ghost laws = { partial_equiv_from_equiv (eq_by_cmp_equiv terms_total) };

    fn eq(&self, other: &Term) -> bool {
        compare(self, other).is_eq()
    }
}

impl Eq for Term {
    ghost use Rattle.std.specs.Cmp.{eq_by_cmp_equiv};
    ghost use Rattle.term_core.specs.OrderLaws.{terms_total};

    ghost laws = { eq_by_cmp_equiv terms_total };
}

impl PartialOrd for Term {
    ghost use Rattle.std.specs.Ordering.{as_partial_cmp};
    ghost use Rattle.std.specs.Cmp.{partial_order_from_total};
    ghost use Rattle.term_core.specs.Order.{term_cmp};
    ghost use Rattle.term_core.specs.OrderLaws.{terms_total};

    ghost partial_cmp = { as_partial_cmp term_cmp };

    ghost laws = { partial_order_from_total terms_total };

    fn partial_cmp(&self, other: &Term) -> Option<Ordering> {
        Some(compare(self, other))
    }
}

impl Ord for Term {
    ghost use Rattle.std.specs.Prelude.{refl};
    ghost use Rattle.term_core.specs.Order.{term_cmp};
    ghost use Rattle.term_core.specs.OrderLaws.{terms_total};

    ghost cmp = { term_cmp };

    ghost total = { terms_total };

    ghost matches_partial_cmp = { λ x y. refl };

    ghost matches_eq = { λ x y. refl };

    fn cmp(&self, other: &Term) -> Ordering {
        compare(self, other)
    }
}

impl Hash for Term {
    ghost use Rattle.term_core.specs.OrderLaws.{hash_writes, hash_alike};

    ghost hash_input = { hash_writes };

    ghost respects_eq = { hash_alike };

    fn hash<H: Hasher>(&self, state: &mut H) {
        state.write_u8(self.kind());
        self.text().hash(state);
        if let Term::Literal { datatype, lang, .. } = self {
            datatype.as_str().hash(state);
            lang.as_str().hash(state);
        }
    }
}
