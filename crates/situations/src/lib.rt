// The situation's record, read into a situation and written from one.
#![tactic(auto)]

ghost use Rattle.std.specs.Prelude.{◌≡◌, ◌≤◌, length, take, get_or, leb};
ghost use Rattle.words.specs.Words.{◌and◌};
ghost use Rattle.situation.specs.Packed.{unpacked};
ghost use Rattle.records.specs.Situation.{bits, in_range, no_situation, codes_of, situation_of};
ghost use Rattle.records.specs.InBytes.{codes_at, both_zero, situation_letters, situation_size, situation_bytes};
ghost use Rattle.forms.specs.Form.{laid};
ghost use Rattle.situations.specs.InWords.{bits_word, codes_word, line_word, flags_word, in_words};
ghost use Rattle.situations.specs.Record.{codes_in};

use block::codes::Pending;
use block::line::Direction;
use forms::Letters;
use records::field::section_field;
use records::situation::{SI, SI_SIZE, SJ, SJ_SIZE};
use situation::{Signals, Situation};

// The bit of a station that says that its SOBB is pending, for A and for B.
const BOTH_ASK: u64 = 1 << 10 | 1 << 26;

// A station's bits: BILC, BSLG, reminder, a pending SOBB. Sums, not shifts, here and below: codes out of range are larger than their bits.
fn bits_word(bilc: u8, bslg: u8, reminder: u8, asks: u8) -> u64
    ensures { (result ≡ bits_word bilc bslg reminder asks) × (result ≤ 3825) }
{
    u64::from(bilc) + 2 * (u64::from(bslg) + 2 * (u64::from(reminder) + 2 * u64::from(asks)))
}

fn station_word(orientation: u8, annulment: u8, exit: u8, entry: u8, bits: u64) -> u64
    requires { bits ≤ 3825 }
    ensures { (result ≡ codes_word orientation annulment exit entry bits) × (result ≤ 1048575) }
{
    u64::from(orientation)
        + 4 * (u64::from(annulment) + 4 * (u64::from(exit) + 4 * (u64::from(entry) + 2 * bits)))
}

// The link, the mark and the count.
fn line_word(link: u8, mark: u8, count: u8) -> u64
    ensures { (result ≡ line_word link mark count) × (result ≤ 1785) }
{
    u64::from(link) + 2 * (u64::from(mark) + 2 * u64::from(count))
}

fn flags_word(own: u64, other: u64, line: u64) -> u64
    requires { (own ≤ 1048575) × (other ≤ 1048575) × (line ≤ 1785) }
    ensures { result ≡ flags_word own other line }
{
    own + 65536 * (other + 65536 * line)
}

// A record SI or SJ: the bytes that both have, and the mark and the count of an SJ: "SI means both zero".
#[derive(Clone, Copy)]
struct Record<'a> {
    // Read by their places: each is a code of its own.
    bytes: &'a [u8; SI_SIZE],
    watch: &'a [u8],
}

impl Record<'_> {
    fn new(si: &[u8]) -> Record<'_>
        requires { 21 ≤ length si.now }
        ensures { codes_in result ≡ codes_at si.now }
    {
        let (bytes, watch) = si.split_first_chunk().unwrap();
        Record { bytes, watch }
    }

    // The link, the mark and the count.
    fn line(&self) -> u64
        ensures value { result ≡ line_word (get_or self.now.bytes.now 2 0) (get_or self.now.watch.now 0 0) (get_or self.now.watch.now 1 0) }
        ensures small { result ≤ 1785 }
    {
        let link = self.bytes[2];
        match self.watch {
            [] => line_word(link, 0, 0),
            [mark, rest @ ..] => line_word(link, *mark, rest.first().copied().unwrap_or(0)),
        }
    }

    fn watch_in_range(&self) -> bool
        ensures { result ≡ (leb (get_or self.now.watch.now 0 0) 1 and leb (get_or self.now.watch.now 1 0) 10) }
    {
        match self.watch {
            [] => true,
            [mark, rest @ ..] => (*mark <= 1) & (rest.first().copied().unwrap_or(0) <= 10),
        }
    }

    fn flags(&self) -> u64
        ensures { result ≡ (in_words (codes_in self.now)).flags }
    {
        let si = self.bytes;
        let bits = bits_word(si[12] % 2, si[13] % 2, si[14] % 2, si[11] % 2);
        let own = station_word(si[3], si[5], si[7], si[9], bits);
        let bits = bits_word(si[12] / 2, si[13] / 2, si[14] / 2, si[11] / 2);
        let other = station_word(si[4], si[6], si[8], si[10], bits);
        flags_word(own, other, self.line())
    }

    fn decoded(&self) -> Situation
        ensures { result ≡ in_words (codes_in self.now) }
    {
        let si = self.bytes;
        let signals = Signals {
            heldb: 2 * section_field(&si[17..19]),
            helda: 2 * section_field(&si[19..21]),
        };
        Situation {
            flags: self.flags(),
            occupied: 2 * section_field(&si[15..17]),
            signals,
        }
    }

    // The first eight codes, then the others.
    // Tests in a row, not a loop over bytes and limits: each limit stands beside its byte.
    fn in_range(&self) -> bool
        ensures { result ≡ in_range (codes_in self.now) }
    {
        let si = self.bytes;
        let first = (si[2] <= 1)
            & (si[3] <= 2)
            & (si[4] <= 2)
            & (si[5] <= 2)
            & (si[6] <= 2)
            & (si[7] <= 2)
            & (si[8] <= 2)
            & (si[9] <= 1);
        if first {
            return (si[10] <= 1)
                & (si[11] <= 2)
                & (si[12] <= 3)
                & (si[13] <= 3)
                & (si[14] <= 3)
                & self.watch_in_range();
        }
        false
    }
}

// A situation that is sound in no plan: what codes out of range say. Each station's SOBB is pending. Not None: the definitions have a situation
// for such codes too, and 2 is said where all are judged.
fn no_situation() -> Situation
    ensures { unpacked result ≡ no_situation }
{
    let signals = Signals { heldb: 0, helda: 0 };
    Situation {
        flags: BOTH_ASK,
        occupied: 0,
        signals,
    }
}

// The situation that a record says; the bytes are the record and nothing after it.
pub fn situation_in(si: &[u8]) -> Situation
    requires { 21 ≤ length si.now }
    ensures { unpacked result ≡ situation_of (codes_at si.now) }
{
    let record = Record::new(si);
    if record.in_range() {
        return record.decoded();
    }
    no_situation()
}

// "As bits (1 A, 2 B)."
fn bits(a: bool, b: bool) -> u8
    ensures { result ≡ bits a b }
{
    u8::from(a) + 2 * u8::from(b)
}

// "SI means both zero."
fn both_zero(x: Situation) -> bool
    ensures { result ≡ both_zero (codes_of (unpacked x)) }
{
    !x.marked() & (x.count() == 0)
}

fn letters_of(x: Situation) -> Letters
    ensures { result ≡ situation_letters (codes_of (unpacked x)) }
{
    if both_zero(x) {
        return SI;
    }
    SJ
}

// How many bytes the record of a situation has, with its letters.
pub fn record_size(x: Situation) -> usize
    ensures { result ≡ situation_size (codes_of (unpacked x)) }
{
    if both_zero(x) {
        return SI_SIZE;
    }
    SJ_SIZE
}

// The record of a situation: as many of these bytes as it has.
fn record_of(x: Situation) -> [u8; 23]
    ensures { result ≡ situation_bytes (codes_of (unpacked x)) }
{
    let letters = letters_of(x);
    let own = x.own();
    let other = x.other();
    let occupied = (x.occupied / 2).to_le_bytes();
    let heldb = (x.held(Direction::TowardsB) / 2).to_le_bytes();
    let helda = (x.held(Direction::TowardsA) / 2).to_le_bytes();
    let pending = Pending {
        own: x.asks(),
        other: x.other_asks(),
    };
    [
        letters.first,
        letters.second,
        u8::from(x.linked()),
        u8::from(own.orientation()),
        u8::from(other.orientation()),
        u8::from(own.annulment()),
        u8::from(other.annulment()),
        u8::from(own.exit_route()),
        u8::from(other.exit_route()),
        u8::from(own.has_entry()),
        u8::from(other.has_entry()),
        u8::from(pending),
        bits(own.has_bilc(), other.has_bilc()),
        bits(own.has_bslg(), other.has_bslg()),
        bits(own.has_reminder(), other.has_reminder()),
        occupied[0],
        occupied[1],
        heldb[0],
        heldb[1],
        helda[0],
        helda[1],
        u8::from(x.marked()),
        x.count(),
    ]
}

// The record is put at the front of a room, later bytes keep their values; returns how many bytes it has.
pub fn put_situation(x: Situation, room: &mut [u8]) -> usize
    requires { situation_size (codes_of (unpacked x)) ≤ length room.old }
    ensures value { result ≡ situation_size (codes_of (unpacked x)) }
    ensures room_after { room.new ≡ laid (take (situation_size (codes_of (unpacked x))) (situation_bytes (codes_of (unpacked x)))) room.old }
{
    let record = record_of(x);
    let size = record_size(x);
    copying::copy(&record[..size], room)
}
