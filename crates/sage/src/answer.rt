// The answer of a query over a document, from the bytes of both.
ghost use Rattle.std.specs.Prelude.{◌≡◌, ◌≤◌, List, length, string_bytes, All, IfOk, IfErr};
ghost use Rattle.term_core.specs.declared.term.Triple.{Triple as Triples};
ghost use Rattle.term_core.specs.declared.pattern.Pattern.{Pattern as Patterns};
ghost use Rattle.term_core.specs.Order.{IsAllowed};
ghost use Rattle.term_core.specs.Spelling.{AreSpelled};
ghost use Rattle.nt_text.specs.Limits.{AreWithinLimits};
ghost use Rattle.plan_tree.specs.Laws.{AreVariables};
ghost use Rattle.plan_tree.specs.Pages.{AreQuanta};
ghost use Rattle.store_image.specs.Holds.{Holds};
ghost use Rattle.triple_store.specs.Stores.{IsStoreOf};
ghost use Rattle.triple_store.specs.Ranges.{IsInStore};
ghost use Rattle.pattern_page.specs.PagesOf.{IsPart, MayRefuse};
ghost use Rattle.sage.specs.Answers.{Answered, AnswersOr, AnswersOver, IsMemory};

use crate::document::{image_of, read_data};
use crate::refusal::Refusal;
use crate::select::{Select, read_select};
use pattern_page::{PageFault, Part, counts_text, follow_pages, push_header};
use sage_outside::{Blocks, NeverBlocks, StoreFault};
use std::alloc::Global;
use term_core::{Items, Memory, Text, Triple};
use triple_store::{OpenFault, Store};

/// The text of an answer, and the line that says how it was made: the pages, their steps, and the
/// length in bytes of the longest suspended plan.
#[derive(Debug, Drop)]
pub struct Answer {
    pub text: Vec<u8>,
    pub counts: String,
}

/// The answer over a part of a store, in pages of as many steps as the quanta say.
fn answer_part<B: Blocks>(
    alloc: Global,
    store: &mut Store<B>,
    part: &Part,
    names: &[Text],
    quanta: &[u32],
) -> Result<Answer, PageFault>
    requires range { IsInStore store.old part.now.range }
    requires some { AreQuanta quanta.now }
    requires variables { AreVariables names.now }
    ensures refused { IfErr result (λ e. MayRefuse e store.old store.new) }
    ensures answered { (triples : List Triples) (pattern : Patterns) → IsPart triples pattern store.old part.now
        → AnswersOr triples names.now pattern quanta.now result }
{
    let mut text = Vec::new(alloc);
    push_header(&mut text, names)?;
    let counts = follow_pages(alloc, store, part, names, quanta, &mut text)?;
    let counts = counts_text(alloc, counts)?;
    Ok(Answer { text, counts })
}

/// The answer over a store, in pages of as many steps as the quanta say.
fn answer_store<B: Blocks>(
    alloc: Global,
    store: &mut Store<B>,
    select: &Select,
    quanta: &[u32],
) -> Result<Answer, PageFault>
    requires some { AreQuanta quanta.now }
    requires variables { AreVariables select.now.names }
    ensures refused { IfErr result (λ e. MayRefuse e store.old store.new) }
    ensures answered { (triples : List Triples) → IsStoreOf store.old triples
        → AnswersOr triples select.now.names select.now.pattern quanta.now result }
{
    let part = Part::new(alloc, store, &select.pattern)?;
    answer_part(alloc, store, &part, select.names.as_slice(), quanta)
}

/// The one fault that a store in memory has.
fn memory_of(fault: PageFault) -> Memory
    requires { IsMemory fault }
{
    match fault {
        PageFault::Memory => Memory,
        PageFault::Store(StoreFault::Memory) => Memory,
        _ => unreachable!(),
    }
}

/// The answer over an opened store, and the blocks, which it gives back whatever came.
fn answer_opened<B: Blocks>(
    alloc: Global,
    store: Store<B>,
    select: &Select,
    quanta: &[u32],
) -> (Result<Answer, PageFault>, B)
    requires some { AreQuanta quanta.now }
    requires variables { AreVariables select.now.names }
    ensures refused { IfErr result.0 (λ e. MayRefuse e store (record { header = store.header; device = B.device result.1 })) }
    ensures answered { (triples : List Triples) → IsStoreOf store triples
        → AnswersOr triples select.now.names select.now.pattern quanta.now result.0 }
{
    let mut store = store;
    let answer = answer_store(alloc, &mut store, select, quanta);
    (answer, store.close())
}

/// The one fault for which a store file in memory is not opened.
fn want_of(fault: OpenFault) -> Memory
    requires { fault ≡ OpenFault.Memory }
{
    match fault {
        OpenFault::Memory => Memory,
        _ => unreachable!(),
    }
}

/// The answer over a store file in memory, in pages of as many steps as the quanta say.
fn answer_image(
    alloc: Global,
    image: &[u8],
    select: &Select,
    quanta: &[u32],
) -> Result<Answer, Memory>
    requires held { (L : List Triples) × Holds L 2 image.now }
    requires some { AreQuanta quanta.now }
    requires variables { AreVariables select.now.names }
    ensures { (L : List Triples) → Holds L 2 image.now
        → IfOk result (λ answer. AnswersOver L select.now.names select.now.pattern quanta.now answer.text.items (string_bytes answer.counts)) }
{
    match Store::open(alloc, NeverBlocks::new(image)) {
        Ok(store) => {
            let (answer, _blocks) = answer_opened(alloc, store, select, quanta);
            match answer {
                Ok(answer) => Ok(answer),
                Err(fault) => Err(memory_of(fault)),
            }
        }
        Err(unopened) => Err(want_of(unopened.fault)),
    }
}

/// The answer over triples, by a store file of them in memory, in pages of as many steps as the
/// quanta say.
fn answer_over(
    alloc: Global,
    triples: Items<Triple>,
    select: &Select,
    quanta: &[u32],
) -> Result<Answer, Memory>
    requires limits { AreWithinLimits triples }
    requires allowed { All IsAllowed triples }
    requires spelled { All AreSpelled triples }
    requires some { AreQuanta quanta.now }
    requires variables { AreVariables select.now.names }
    ensures { IfOk result (λ answer. AnswersOver triples select.now.names select.now.pattern quanta.now answer.text.items (string_bytes answer.counts)) }
{
    let image = image_of(alloc, triples)?;
    answer_image(alloc, &image, select, quanta)
}

/// Answers the query over the document, in pages of as many steps as the quanta say, which are walked
/// round. The document's triples are made into a store file in memory, which the pages read; the first
/// begins the plan, and each other goes on from the bytes that the page before gave.
///
/// `Data` comes exactly where the document is refused, `Query` exactly where the document is not and
/// the query is.
pub(crate) fn answer_query(
    alloc: Global,
    document: Vec<u8>,
    query: Vec<u8>,
    quanta: &[u32],
) -> Result<Answer, Refusal>
    requires { AreQuanta quanta.now }
    ensures { Answered result document.items query.items quanta.now }
{
    match read_data(alloc, document) {
        Ok(triples) => match read_select(alloc, &query) {
            Ok(select) => match answer_over(alloc, triples, &select, quanta) {
                Ok(answer) => Ok(answer),
                Err(_) => Err(Refusal::Memory),
            },
            Err(refusal) => Err(refusal),
        },
        Err(refusal) => Err(refusal),
    }
}
