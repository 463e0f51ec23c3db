// A plan and a situation that are given apart, each as the records of a question.
ghost use Rattle.std.specs.Prelude.{◌≡◌};
ghost use Rattle.paper.specs.Given.{given};
ghost use Rattle.paper.specs.GivenAs.{given_as};

use block::line::Plan;
use records::plan::{is_plan, plan_in};
use records::situation::is_situation;
use situation::Situation;
use situations::situation_in;

// The situation and the plan, where both are exactly such records. The words of the situation come first: behind the three bytes of a plan they were
// copied from places that are no words', and every call waited for that.
#[inline(always)]
pub fn both_given(plan: &[u8], situation: &[u8]) -> Option<(Situation, Plan)>
    ensures { given_as result ≡ given plan.now situation.now }
{
    if is_plan(plan) && is_situation(situation) {
        return Some((situation_in(situation), plan_in(plan)));
    }
    None
}
