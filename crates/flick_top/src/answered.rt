//! What answers an item: octets, which are a refusal or not.

ghost use Rattle.std.specs.Prelude.{◌≡◌, ◌∷◌, ◌++◌, [], IfOk};
ghost use Rattle.flick_top.specs.Answer.{is_refusal};

use flick_lines::ended;
use kit_base::{NoMemory, Octets};

/// What answers an item.
#[derive(Debug, Drop)]
pub struct Answered {
    /// The octets that are written.
    pub octets: Octets,
    /// Whether it is a refusal.
    pub refused: bool,
}

/// Octets as an answer, which is a refusal where it begins with `!`.
pub fn as_answer(octets: Octets) -> Answered
    ensures octets { result.octets ≡ octets }
    ensures refused { result.refused ≡ is_refusal octets }
{
    let refused = is_refusal(octets.as_slice());
    Answered { octets, refused }
}

/// A text as an answer, with a line feed after it.
pub fn with_end(text: Octets) -> Result<Answered, NoMemory>
    ensures { IfOk result (λ a. (a.octets ≡ text ++ 10 ∷ []) × (a.refused ≡ is_refusal text)) }
{
    let refused = is_refusal(text.as_slice());
    let octets = ended(text)?;
    Ok(Answered { octets, refused })
}

/// Whether an answer is a refusal.
fn is_refusal(text: &[u8]) -> bool
    ensures { result ≡ is_refusal text.now }
{
    match text {
        [b'!', ..] => true,
        _ => false,
    }
}
