// Questions, and what one in range has as its exact answer.
ghost use Rattle.std.specs.Prelude.{◌≡◌, true, is_some, IfSome};
ghost use Rattle.numeric.specs.Exact.{in_range, ◌÷◌};
ghost use Rattle.numeric.specs.Kinds.{kind_number};

use super::exact::Fraction;

// Kind 1: seconds to run the amount of metres; kind 2: metres run in the amount of seconds.
#[derive(Clone, Copy, Debug, PartialEq, Eq)]
pub enum Kind {
    Seconds = 1,
    Metres = 2,
}

// The numbers of a question, as they come: of any value, since the C interface hands them over.
#[derive(Clone, Copy, Debug, PartialEq, Eq)]
pub struct Numbers {
    pub kind: u8,
    pub amount: u32,
    pub speed: u32,
    pub tolerance: u32,
}

// A question in range.
#[derive(Clone, Copy, Debug, PartialEq, Eq)]
pub struct Question {
    pub kind: Kind,
    pub amount: u32,
    pub speed: u32,
    pub tolerance: u32,
    ghost ranged: { in_range (kind_number kind) amount speed tolerance ≡ true },
}

impl Numbers {
    ghost use Rattle.numeric.specs.Told.{numbers_of};

    // The question that has these numbers, if they are in range.
    pub fn question(self) -> Option<Question>
        ensures ranged { is_some result ≡ in_range self.kind self.amount self.speed self.tolerance }
        ensures same { IfSome result (λ q. numbers_of q ≡ self) }
    {
        let (kind, most) = match self.kind {
            1 => (Kind::Seconds, 20000),
            2 => (Kind::Metres, 10000),
            _ => return None,
        };
        if (1..=most).contains(&self.amount)
            & (1..=200).contains(&self.speed)
            & (self.tolerance <= 10000)
        {
            Some(Question {
                kind,
                amount: self.amount,
                speed: self.speed,
                tolerance: self.tolerance,
            })
        } else {
            None
        }
    }
}

impl Question {
    ghost use Rattle.numeric.specs.Told.{answer_to};

    // The time or the way that the question asks for.
    pub fn exact_answer(self) -> Fraction
        ensures { result.top ÷ result.bottom ≡ answer_to self }
    {
        match self.kind {
            Kind::Seconds => Fraction {
                top: 18 * self.amount,
                bottom: 5 * self.speed,
            },
            Kind::Metres => Fraction {
                top: 5 * self.speed * self.amount,
                bottom: 18,
            },
        }
    }
}
