// The line: n sections, numbered from A, and a frontier. Sections 1 to b are A's area, the others B's.
ghost use Rattle.std.specs.Prelude.{◌≡◌, ◌+◌, ◌-◌};
ghost use Rattle.words.specs.Words.{◌and◌};
ghost use Rattle.sections.specs.Sections.{◌belongs_to◌};
ghost use Rattle.block.specs.Line.{is_plan, plan_judged, is_section, some_section, in_area, owner, first_section, is_first, station_named, opposite, away, toward, entrance, terminus, before, across_frontier, direction_of, section_of, is_signal, is_exit, is_block_signal};
ghost use Rattle.block.specs.Areas.{AreaOf};
ghost use Rattle.block.specs.Refusals.{told};

use super::refused::{Refusal, refuse_if};
use sections::{both, minus, sections_to};

// Its last field says the edition: the rules of 2012, or those of 2024 (02, Req 05).
#[derive(Clone, Copy, Debug, PartialEq, Eq)]
pub struct Plan {
    pub sections: u8,
    pub frontier: u8,
    pub rules2012: bool,
}

#[derive(Clone, Copy, Debug, PartialEq, Eq)]
pub enum Name {
    StationA,
    StationB,
}

#[derive(Clone, Copy, Debug, PartialEq, Eq)]
pub enum Direction {
    TowardsA,
    TowardsB,
}

impl Plan {
    pub fn is_plan(self) -> bool
        ensures { result ≡ is_plan self }
    {
        (2 <= self.sections)
            & (self.sections <= 16)
            & (1 <= self.frontier)
            & (self.frontier < self.sections)
    }

    pub fn is_section(self, k: u8) -> bool
        ensures { result ≡ is_section self k }
    {
        (1 <= k) & (k <= self.sections)
    }

    pub fn owner(self, k: u16) -> Name
        ensures { result ≡ owner self k }
    {
        if k <= u16::from(self.frontier) {
            Name::StationA
        } else {
            Name::StationB
        }
    }

    // The sections of a station's area, of those that a word has a bit for.
    pub fn area(self, s: Name) -> u64
        ensures { AreaOf self s result }
    {
        let line = sections_to(self.sections);
        let a = sections_to(self.frontier);
        match s {
            Name::StationA => both(line, a),
            Name::StationB => minus(line, a),
        }
    }

    // Some section of the area of s is in m.
    pub fn some_in_area(self, s: Name, m: u64) -> bool
        ensures { result ≡ some_section self (λ k. in_area self s k and (k belongs_to m)) }
    {
        both(self.area(s), m) != 0
    }

    pub fn first_section(self, s: Name) -> u8
        ensures { result ≡ first_section self s }
    {
        match s {
            Name::StationA => 1,
            Name::StationB => self.sections,
        }
    }

    pub fn is_first(self, s: Name, k: u16) -> bool
        ensures { result ≡ is_first self s k }
    {
        k == u16::from(self.first_section(s))
    }

    // Whether j and k, two sections that follow each other, lie in different areas.
    pub fn across_frontier(self, j: u16, k: u16) -> bool
        ensures { result ≡ across_frontier self j k }
    {
        self.owner(j) != self.owner(k)
    }

    pub fn is_signal(self, signal: u8) -> bool
        ensures { result ≡ is_signal self signal }
    {
        self.is_section(section_of(signal))
    }

    fn is_exit(self, d: Direction, k: u16) -> bool
        ensures { result ≡ is_exit self d k }
    {
        self.is_first(d.entrance(), k)
    }

    pub fn is_block_signal(self, signal: u8) -> bool
        ensures { result ≡ is_block_signal self signal }
    {
        let k = u16::from(section_of(signal));
        let exit = self.is_exit(direction_of(signal), k);
        self.is_signal(signal) & !exit
    }
}

// Refused where it is no plan.
pub fn plan_judged(plan: Plan) -> Result<(), Refusal>
    ensures { told result ≡ plan_judged plan }
{
    refuse_if(!plan.is_plan(), Refusal::NoPlan)
}

// "Station argument: 0 A, 1 B." Not a From, as are the next two: a byte is a station, a direction or a section by what it stands for.
pub fn station_named(arg: u8) -> Name
    ensures { result ≡ station_named arg }
{
    if arg == 1 {
        Name::StationB
    } else {
        Name::StationA
    }
}

pub fn direction_of(signal: u8) -> Direction
    ensures { result ≡ direction_of signal }
{
    if 128 <= signal {
        Direction::TowardsA
    } else {
        Direction::TowardsB
    }
}

pub fn section_of(signal: u8) -> u8
    ensures { result ≡ section_of signal }
{
    signal % 128
}

// The document's words of stations and directions, each a table of its own: one by way of another is no plainer.
impl Name {
    pub fn opposite(self) -> Name
        ensures { result ≡ opposite self }
    {
        match self {
            Name::StationA => Name::StationB,
            Name::StationB => Name::StationA,
        }
    }

    pub fn away(self) -> Direction
        ensures { result ≡ away self }
    {
        match self {
            Name::StationA => Direction::TowardsB,
            Name::StationB => Direction::TowardsA,
        }
    }

    pub fn toward(self) -> Direction
        ensures { result ≡ toward self }
    {
        match self {
            Name::StationA => Direction::TowardsA,
            Name::StationB => Direction::TowardsB,
        }
    }
}

impl Direction {
    // The station where trains enter the line in this direction.
    pub fn entrance(self) -> Name
        ensures { result ≡ entrance self }
    {
        match self {
            Direction::TowardsA => Name::StationB,
            Direction::TowardsB => Name::StationA,
        }
    }

    // The station that receives them.
    pub fn terminus(self) -> Name
        ensures { result ≡ terminus self }
    {
        match self {
            Direction::TowardsA => Name::StationA,
            Direction::TowardsB => Name::StationB,
        }
    }

    pub fn before(self, k: u8) -> u16
        ensures { result ≡ before self k }
    {
        match self {
            Direction::TowardsA => u16::from(k) + 1,
            Direction::TowardsB => u16::from(k).saturating_sub(1),
        }
    }
}
