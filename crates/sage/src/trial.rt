// The generated data of a trial.
ghost use Rattle.std.specs.Prelude.{◌≡◌, ◌<◌, ◌%◌, ◌++◌, [], ◌∷◌, All, IfOk, OnOk};
ghost use Rattle.std.specs.Fmt.{decimal};
ghost use Rattle.term_core.specs.Numbers.{xsd_integer};
ghost use Rattle.term_core.specs.Order.{IsAllowed};
ghost use Rattle.term_core.specs.Spelling.{AreSpelled};
ghost use Rattle.sage.specs.Trial.{trial_node, next_triple, value_triple, trial_data};

use std::alloc::Global;
use term_core::{Items, Memory, Term, Text, Triple, XSD_INTEGER};

/// The IRI of a number.
fn node(alloc: Global, i: u32) -> Result<Term, Memory>
    ensures { IfOk result (λ term. term ≡ trial_node i) }
{
    let iri = format!(in alloc; "http://t.example/n{i}")?;
    Ok(Term::Iri(Text::from_string(iri)))
}

/// The value of a number: a digit as an xsd:integer.
fn value(alloc: Global, i: u32) -> Result<Term, Memory>
    ensures { IfOk result (λ term. term ≡ Term.Literal (decimal (i % 10)) xsd_integer []) }
{
    let digit = i % 10;
    let lexical = format!(in alloc; "{digit}")?;
    let datatype = Text::from_str(alloc, XSD_INTEGER)?;
    Term::typed(alloc, Text::from_string(lexical), datatype)
}

/// The triple that tells the number next to number `i`, of `n` numbers.
#[tactic(auto, unfolding(crate::specs::Trial::next_triple))]
fn next_triple(alloc: Global, n: u32, i: u32) -> Result<Triple, Memory>
    requires { 0 < n }
    ensures { IfOk result (λ triple. triple ≡ next_triple n i) }
{
    let subject = node(alloc, i)?;
    let object = node(alloc, ((7 * i as u64 + 1) % n as u64) as u32)?;
    let predicate = Text::from_str(alloc, "http://t.example/next")?;
    Ok(Triple {
        subject,
        predicate: Term::Iri(predicate),
        object,
    })
}

/// The triple that tells the value of number `i`.
#[tactic(auto, unfolding(crate::specs::Trial::value_triple))]
fn value_triple(alloc: Global, i: u32) -> Result<Triple, Memory>
    ensures { IfOk result (λ triple. triple ≡ value_triple i) }
{
    let subject = node(alloc, i)?;
    let object = value(alloc, i)?;
    let predicate = Text::from_str(alloc, "http://t.example/val")?;
    Ok(Triple {
        subject,
        predicate: Term::Iri(predicate),
        object,
    })
}

/// Appends the two triples of number `i`, of `n` numbers.
fn push_number(alloc: Global, out: &mut Items<Triple>, n: u32, i: u32) -> Result<(), Memory>
    requires { 0 < n }
    ensures { OnOk result (out.new ≡ out.old ++ next_triple n i ∷ value_triple i ∷ []) }
{
    out.push(next_triple(alloc, n, i)?)?;
    out.push(value_triple(alloc, i)?)
}

/// The triples of a trial of `n` numbers, two for each: number `i` has the next number (7 i + 1) mod
/// n, and the value i mod 10, an xsd:integer.
#[tactic(auto, using(crate::proofs::Trials::all_allowed, crate::proofs::Trials::all_spelled))]
pub fn trial_triples(alloc: Global, n: u32) -> Result<Items<Triple>, Memory>
    ensures is { IfOk result (λ triples. triples ≡ trial_data n) }
    ensures allowed { IfOk result (All IsAllowed) }
    ensures spelled { IfOk result (All AreSpelled) }
{
    let mut triples = Items::new(alloc);
    for i in 0..n {
        push_number(alloc, &mut triples, n, i)?;
    }
    Ok(triples)
}
