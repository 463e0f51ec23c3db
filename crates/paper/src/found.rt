// A question, found once: judged, its plan, situation and length decoded.
ghost use Rattle.std.specs.Prelude.{◌≡◌};
ghost use Rattle.paper.specs.Read.{read_of};
ghost use Rattle.paper.specs.Found.{found_as};

use super::question::Accepted;
use block::refused::Refusal;
use lists::lists_refusal;
use records::lists::EVENT;
use records::plan::plan_in;
use records::question::where_laid;
use situations::situation_in;
use soundness::judged;

// Refusals 20, 1, 2, then 3 and 4 event by event, 21.
pub fn find(bytes: &[u8]) -> Result<Accepted<'_>, Refusal>
    ensures { found_as result ≡ read_of bytes.now }
{
    let Some(laid) = where_laid(bytes) else {
        return Err(Refusal::NoForm);
    };
    let plan = plan_in(laid.plan);
    let situation = situation_in(laid.situation);
    judged(plan, situation)?;
    lists_refusal(plan, laid.events, laid.readings, laid.length)?;
    Ok(Accepted {
        plan,
        situation,
        count: (laid.events.len() / EVENT) as u8,
        events: laid.events,
        readings: laid.readings,
        length: laid.length,
    })
}
