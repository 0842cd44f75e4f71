// The data of a document, and their store file in memory.
ghost use Rattle.std.specs.Prelude.{All, IfOk};
ghost use Rattle.term_core.specs.Order.{IsAllowed};
ghost use Rattle.term_core.specs.Spelling.{AreSpelled};
ghost use Rattle.nt_text.specs.Limits.{AreWithinLimits};
ghost use Rattle.store_image.specs.Image.{IsImage};
ghost use Rattle.store_image.specs.Holds.{Holds};
ghost use Rattle.sage.specs.Data.{ReadsData};

use crate::refusal::Refusal;
use nt_text::{DataFault, read_document};
use std::alloc::Global;
use store_image::image;
use term_core::{Items, Memory, Triple};

/// The triples of a document, whose bytes are let go.
pub(crate) fn read_data(alloc: Global, document: Vec<u8>) -> Result<Items<Triple>, Refusal>
    ensures is_data { ReadsData result document.items }
    ensures allowed { IfOk result (All IsAllowed) }
    ensures spelled { IfOk result (All AreSpelled) }
{
    match read_document(alloc, &document) {
        Ok(triples) => Ok(triples),
        Err(DataFault::Memory) => Err(Refusal::Memory),
        Err(fault) => Err(Refusal::Data { fault }),
    }
}

/// The store file of triples, which are let go, of format 2.
pub(crate) fn image_of(alloc: Global, triples: Items<Triple>) -> Result<Vec<u8>, Memory>
    requires limits { AreWithinLimits triples }
    requires allowed { All IsAllowed triples }
    requires spelled { All AreSpelled triples }
    ensures is { IfOk result (λ image. IsImage triples 2 image.items) }
    ensures holds { IfOk result (λ image. Holds triples 2 image.items) }
{
    image(alloc, triples.as_slice())
}
