//! `model_explanation`: what is said of a listing and scripts of which there is no model.
ghost use Rattle.std.specs.Prelude.{◌≡◌};
ghost use Rattle.snap_explanation.specs.ModelExplanation.{model_explanation};

use crate::wording::{LARGE_MODEL, MODEL_NUMBERS};
use snap_semantics::ModelRefusal;

/// Returns the text behind the line that says why there is no model.
pub fn model_explanation(refusal: &ModelRefusal) -> &'static [u8]
    ensures { result.now ≡ model_explanation refusal.now }
{
    match refusal {
        ModelRefusal::TooLarge => LARGE_MODEL,
        ModelRefusal::BadNumber(_) => MODEL_NUMBERS,
    }
}
