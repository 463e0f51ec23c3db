// The codes of events, and what the argument of each names.
ghost use Rattle.std.specs.Prelude.{◌≡◌, MatchOption};
ghost use Rattle.rulebook.specs.Table.{kind_of, unknown};
ghost use Rattle.events.specs.Codes.{kind_for, Decodes, names};

use block::refused::Refusal;

#[derive(Clone, Copy, Debug, PartialEq, Eq)]
pub enum Code {
    Sobb = 1,
    Cobb = 2,
    Afbli = 3,
    Afble = 4,
    Dafbl = 5,
    Bilc = 6,
    Dilc = 7,
    Bslg = 8,
    BslgOff = 9,
    Bslb = 10,
    BslbOff = 11,
    Reminder = 12,
    ReminderOff = 13,
    ExitNormal = 14,
    ExitSpecial = 15,
    ExitReleased = 16,
    Entry = 17,
    EntryReleased = 18,
    Occupied = 19,
    Freed = 20,
    LinkLost = 21,
    LinkRestored = 22,
    Second = 23,
}

#[derive(Clone, Copy, Debug, PartialEq, Eq)]
pub enum Argument {
    Station,
    Signal,
    Section,
    Nothing,
}

impl TryFrom<u8> for Code {
    type Error = Refusal;

    ghost try_from_gives = { Decodes };

    fn try_from(byte: u8) -> Result<Code, Refusal> {
        Code::of(byte).ok_or(Refusal::UnknownCode)
    }
}

impl Code {
    // TryFrom is made of this: behind a test of Ok the compiler copies less into the one that asks where an event leads.
    pub fn of(byte: u8) -> Option<Code>
        ensures { MatchOption result (kind_of byte ≡ unknown) (λ code. kind_of byte ≡ kind_for code) }
    {
        Some(match byte {
            1 => Code::Sobb,
            2 => Code::Cobb,
            3 => Code::Afbli,
            4 => Code::Afble,
            5 => Code::Dafbl,
            6 => Code::Bilc,
            7 => Code::Dilc,
            8 => Code::Bslg,
            9 => Code::BslgOff,
            10 => Code::Bslb,
            11 => Code::BslbOff,
            12 => Code::Reminder,
            13 => Code::ReminderOff,
            14 => Code::ExitNormal,
            15 => Code::ExitSpecial,
            16 => Code::ExitReleased,
            17 => Code::Entry,
            18 => Code::EntryReleased,
            19 => Code::Occupied,
            20 => Code::Freed,
            21 => Code::LinkLost,
            22 => Code::LinkRestored,
            23 => Code::Second,
            _ => return None,
        })
    }

    pub fn argument(self) -> Argument
        ensures { names result ≡ (kind_for self).argument }
    {
        match self {
            Code::Bslb | Code::BslbOff => Argument::Signal,
            Code::Occupied | Code::Freed => Argument::Section,
            Code::LinkLost | Code::LinkRestored | Code::Second => Argument::Nothing,
            _ => Argument::Station,
        }
    }
}
