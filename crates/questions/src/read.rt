// Bytes, read as a question.
ghost use Rattle.std.specs.Prelude.{◌≡◌, IfOk};
ghost use Rattle.paper.specs.Read.{read_of};
ghost use Rattle.questions.specs.InCode.{told, zeros_past};

use super::question::{Items, Question};
use block::refused::Refusal;
use paper::found::find;

// Past a count the question has zeros.
pub fn read_question(bytes: &[u8]) -> Result<Question, Refusal>
    ensures result_value { told result ≡ read_of bytes.now }
    ensures events_value { IfOk result (λ q. (zeros_past 2 q.events ≡ q.events) × (zeros_past 3 q.readings ≡ q.readings)) }
{
    let found = find(bytes)?;
    Ok(Question {
        plan: found.plan,
        situation: found.situation,
        events: Items::new(found.events),
        readings: Items::new(found.readings),
        length: found.length,
    })
}
