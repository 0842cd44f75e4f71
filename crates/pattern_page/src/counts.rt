// The line that says how a query was answered.
ghost use Rattle.std.specs.Prelude.{◌≡◌, string_bytes, IfOk};
ghost use Rattle.pattern_page.specs.Results.{counts_line};

use crate::follow::Counts;
use std::alloc::Global;
use term_core::Memory;

/// The counts as a line of text.
pub fn counts_text(alloc: Global, counts: Counts) -> Result<String, Memory>
    ensures { IfOk result (λ text. string_bytes text ≡ counts_line counts.pages counts.steps counts.longest) }
{
    let Counts {
        pages,
        steps,
        longest,
    } = counts;
    Ok(format!(in alloc; "pages {pages} steps {steps} longest {longest}\n")?)
}
