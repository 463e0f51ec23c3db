// The sheet line of an answer.
ghost use Rattle.std.specs.Prelude.{◌≡◌};
ghost use Rattle.numeric.specs.Kinds.{kind_number};
ghost use Rattle.numeric.specs.Told.{answer_to, line_told};
ghost use Rattle.marking.specs.Sheet.{given_of, sheet_line};

use super::Answer;
use numeric::question::{Kind, Question};
use numeric::{Line, Verdict};

// The number as given; blank: +0.
fn given_in(answer: Answer) -> f32
    ensures { result ≡ given_of answer }
{
    match answer {
        Answer::Blank => 0.0,
        Answer::Seconds(x) | Answer::Metres(x) => x,
    }
}

// The line of an answer, the unit judged before the number.
pub(crate) fn sheet_line(question: Question, answer: Answer) -> Line
    ensures { line_told result ≡ sheet_line (kind_number question.kind) (answer_to question) question.tolerance answer }
{
    let exact = question.exact_answer();
    let given = given_in(answer);
    if let Answer::Blank = answer {
        return exact.unjudged_line(Verdict::Blank, given);
    }
    let ((Kind::Seconds, Answer::Seconds(x)) | (Kind::Metres, Answer::Metres(x))) = (
        question.kind,
        answer,
    ) else {
        return exact.unjudged_line(Verdict::OtherUnit, given);
    };
    exact.number_line(question.tolerance, x)
}
