// The readings of a question, put together once: what they ask of each station's orientation, annulment and exit route, and of the line.
// Aspects are read in each situation.
ghost use Rattle.std.specs.Prelude.{◌≡◌, true};
ghost use Rattle.block.specs.Line.{is_plan};
ghost use Rattle.situation.specs.Packed.{unpacked};
ghost use Rattle.records.specs.InBytes.{readings_in};
ghost use Rattle.rules.specs.RulesOf.{all_hold};
ghost use Rattle.rules.specs.Wanted.{where_line, with_codes, with_line, with_aspect, with_reading, wanted_of, Asked, as_wanted, aspects_hold};

use block::line::{Name, Plan, station_named};
use block::reading::Reading;
use records::lists::READING;
use sections::{both, has};
use signals::lights::aspect_of;
use signals::readings::{Kind, line_read};
use situation::Situation;
use situation::codes::for_value;

// A set for each station: the codes of orientation, annulment and exit route, as one number, that the readings allow.
// The line's set: 0 is in it if the line may be free, 1 if it may not. How many bytes of readings there are from the first aspect on.
// That is a number and not those bytes: what is asked is compared as a whole value, and a slice has its address too.
#[derive(Clone, Copy, Debug, PartialEq, Eq)]
pub struct Wanted {
    pub own: u64,
    pub other: u64,
    pub line: u64,
    pub aspects: usize,
}

const ANYTHING: Wanted = Wanted {
    own: u64::MAX,
    other: u64::MAX,
    line: 3,
    aspects: 0,
};

// The line: 0 free, 1 not; no other value.
#[tactic(auto, unfolding(crate::specs::Wanted::where_line))]
fn where_line(value: u8) -> u64
    ensures { result ≡ where_line value }
{
    for_value(1, 2, 0, value)
}

impl Wanted {
    // Argument station: 0 A, 1 B.
    fn with_codes(self, arg: u8, codes: u64) -> Wanted
        ensures { result ≡ with_codes arg codes self }
    {
        match station_named(arg) {
            Name::StationA => Wanted {
                own: both(self.own, codes),
                ..self
            },
            Name::StationB => Wanted {
                other: both(self.other, codes),
                ..self
            },
        }
    }

    fn with_line(self, values: u64) -> Wanted
        ensures { result ≡ with_line values self }
    {
        Wanted {
            line: both(self.line, values),
            ..self
        }
    }

    fn with_aspect(self, left: usize) -> Wanted
        ensures { result ≡ with_aspect left self }
    {
        Wanted {
            aspects: self.aspects.max(left),
            ..self
        }
    }

    // A reading more, the first of so many bytes. A number that is no kind reads the line.
    fn with_reading(self, reading: Reading, left: usize) -> Wanted
        ensures { result ≡ with_reading reading.kind reading.argument reading.value left self }
    {
        let arg = reading.argument;
        let value = reading.value;
        match Kind::try_from(reading.kind) {
            Ok(Kind::Aspect) => self.with_aspect(left),
            Ok(Kind::Station(code)) => self.with_codes(arg, code.codes_where(value)),
            Ok(Kind::Line) | Err(_) => self.with_line(where_line(value)),
        }
    }

    // Whether a situation is what is asked, but for the aspects.
    fn allows(self, x: Situation) -> bool
        ensures { result ≡ as_wanted self x }
    {
        has(self.own, x.own_codes())
            && has(self.other, x.other_codes())
            && has(self.line, u16::from(line_read(x)))
    }
}

pub fn wanted_of(readings: &[u8]) -> Wanted
    ensures { result ≡ wanted_of readings.now }
{
    let mut w = ANYTHING;
    for (i, bytes) in readings.chunks_exact(READING).enumerate() {
        let reading = Reading {
            kind: bytes[0],
            argument: bytes[1],
            value: bytes[2],
        };
        w = w.with_reading(reading, readings.len() - READING * i);
    }
    w
}

fn aspects_hold(plan: Plan, x: Situation, readings: &[u8]) -> bool
    requires { is_plan plan ≡ true }
    ensures { result ≡ aspects_hold plan (readings_in readings.now) (unpacked x) }
{
    for reading in readings.chunks_exact(READING) {
        if reading[0] == u8::from(Kind::Aspect)
            && u8::from(aspect_of(plan, x, reading[1])) != reading[2]
        {
            return false;
        }
    }
    true
}

// Whether all readings hold, of which w is what they ask.
pub fn all_hold(plan: Plan, w: Wanted, x: Situation, readings: &[u8]) -> bool
    requires { Asked plan w readings.now }
    ensures { result ≡ all_hold plan (readings_in readings.now) (unpacked x) }
{
    if !w.allows(x) {
        return false;
    }
    let from = readings.len() - w.aspects;
    aspects_hold(plan, x, &readings[from..])
}
