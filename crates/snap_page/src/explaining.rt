//! `explained`: the explanation of a refused input, behind the line of its refusal.
ghost use Rattle.std.specs.Prelude.{◌≡◌, IfOk, ℕ, List, Result};
ghost use Rattle.snap_semantics.specs.declared.refusal.Refusal.{Refusal};
ghost use Rattle.snap_page.specs.Answer.{IsAnswerFor};
ghost use Rattle.snap_page.specs.Explained.{explained, layout_for};

use crate::answering::{answer_to, judge_request};
use crate::page_request::PageRequest;
use snap_explanation::{Layout, explanation, layout_of};
use snap_semantics::Fault;
use snap_tasks::Request;
use std::alloc::{AllocError, Global};

/// Returns what the input consists of.
fn layout_for(asked: &PageRequest) -> Layout
    ensures { result ≡ layout_for asked.now }
{
    match asked {
        PageRequest::Do(task) => layout_of(&Request::Do(*task)),
        PageRequest::Judge(subject) => layout_of(&Request::Judge(judge_request(*subject))),
    }
}

/// Returns the explanation of an input that is refused; no text of one that is not.
///
/// # Errors
///
/// There is no memory for the answer or its explanation.
pub fn explained(alloc: Global, asked: &PageRequest, input: &[u8]) -> Result<Vec<u8>, AllocError>
    ensures { IfOk result (λ text. (answer : Result (List ℕ) Refusal)
        × IsAnswerFor asked.now input.now answer
        × (text.items ≡ explained asked.now input.now answer)) }
{
    match answer_to(alloc, asked, input) {
        Ok(_) => Ok(Vec::new(alloc)),
        Err(Fault::Memory) => Err(AllocError),
        Err(Fault::Refused(refusal)) => explanation(alloc, layout_for(asked), input, &refusal),
    }
}
