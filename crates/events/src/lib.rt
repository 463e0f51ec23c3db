// Orders and happenings: an event on a situation as it is kept.
#![tactic(auto)]

mod code;

ghost use Rattle.std.specs.Prelude.{◌≡◌, not, if◌then◌else◌};
ghost use Rattle.block.specs.Refusals.{number, told};
ghost use Rattle.rulebook.specs.Table.{station, section, Occupied};
ghost use Rattle.rulebook.specs.Apply.{fits, known, argument_right, spot_named, led_at, own_refusal, reached, stepped, applied};
ghost use Rattle.rulebook.specs.Editions.{kind_in_2024, refusal_by, added_in_2012};
ghost use Rattle.rulebook.specs.Names.{name};
ghost use Rattle.refusals.specs.InOrder.{own_run};
ghost use Rattle.situation.specs.Packed.{unpacked};
ghost use Rattle.events.specs.Codes.{names};
ghost use Rattle.events.specs.Outcomes.{outcome, named};

use block::event::{Event, Spot};
use block::line::{Plan, direction_of, section_of, station_named};
use block::refused::{Refusal, refuse_if};
use code::{Argument, Code};
use names::{lowest_occupied, route_holder};
use situation::Situation;
use soundness::judged;

// What refuses an event, and what that names: a number, as the interface hands it on.
#[derive(Clone, Copy, Debug, PartialEq, Eq)]
pub struct Refused {
    pub refusal: Refusal,
    pub name: u8,
}

// What a refused event hands back: why, and the situation, unchanged.
#[derive(Clone, Copy, Debug)]
pub struct HandedBack {
    pub refused: Refused,
    pub situation: Situation,
}

fn fits(plan: Plan, argument: Argument, arg: u8) -> bool
    ensures { result ≡ fits plan (names argument) arg }
{
    match argument {
        Argument::Station => arg <= 1,
        Argument::Signal => plan.is_block_signal(arg),
        Argument::Section => plan.is_section(arg),
        Argument::Nothing => arg == 0,
    }
}

// Of an event of any code: an unknown one's argument is taken as a station's.
pub fn argument_right(plan: Plan, event: Event) -> bool
    ensures { result ≡ argument_right plan event }
{
    match Code::of(event.code) {
        Some(code) => fits(plan, code.argument(), event.argument),
        None => fits(plan, Argument::Station, event.argument),
    }
}

// 3 unknown code; 4 argument.
pub fn bytes_refusal(plan: Plan, event: Event) -> Result<(), Refusal>
    ensures { told result ≡ (if not (known event) then 3 else if not (argument_right plan event) then 4 else 0) }
{
    let code = Code::try_from(event.code)?;
    refuse_if(
        !fits(plan, code.argument(), event.argument),
        Refusal::WrongArgument,
    )
}

// Where an event of a station happens, or of the link or a second, for which A stands.
fn at_station(plan: Plan, arg: u8) -> Spot
    ensures { result ≡ spot_named plan station arg }
{
    let own = station_named(arg);
    let section = section_of(arg);
    let direction = direction_of(arg);
    Spot {
        plan,
        own,
        section,
        direction,
    }
}

// Where an event of a section or of a signal happens: own is the owner. Not one function with the other, which asks the line for nothing.
fn at_owner(plan: Plan, arg: u8) -> Spot
    ensures { result ≡ spot_named plan section arg }
{
    let section = section_of(arg);
    let own = plan.owner(section as u16);
    let direction = direction_of(arg);
    Spot {
        plan,
        own,
        section,
        direction,
    }
}

// What refuses the event in 2024, of a code that is known and an argument that is right. What refuses an event of a section or of a signal
// is the same as either station sees it.
pub fn refusal_in_2024(plan: Plan, x: Situation, event: Event) -> Result<(), Refusal>
    ensures { told result ≡ refusal_by kind_in_2024 plan (unpacked x) event }
{
    let code = Code::try_from(event.code)?;
    let arg = event.argument;
    let at = at_station(plan, arg);
    let seen = x.seen_from(at.own);
    match code {
        Code::Sobb => refusals::sobb_refusal(seen, at),
        Code::Cobb => refusals::cobb_refusal(seen, at),
        Code::Afbli => refusals::afbli_refusal(seen, at),
        Code::Afble => refusals::afble_refusal(seen, at),
        Code::Dafbl => refusals::dafbl_refusal(seen, at),
        Code::Bilc => refusals::bilc_refusal(seen, at),
        Code::Dilc => refusals::dilc_refusal(seen, at),
        Code::Bslg => refusals::bslg_refusal(seen, at),
        Code::BslgOff => refusals::bslg_off_refusal(seen, at),
        Code::Bslb => refusals::bslb_refusal(x, at_owner(plan, arg)),
        Code::BslbOff => refusals::bslb_off_refusal(x, at_owner(plan, arg)),
        Code::Reminder => refusals::reminder_refusal(seen, at),
        Code::ReminderOff => refusals::reminder_off_refusal(seen, at),
        Code::ExitNormal => refusals::exit_normal_refusal(seen, at),
        Code::ExitSpecial => refusals::exit_special_refusal(seen, at),
        Code::ExitReleased => refusals::exit_released_refusal(seen, at),
        Code::Entry => refusals::entry_refusal(seen, at),
        Code::EntryReleased => refusals::entry_released_refusal(seen, at),
        Code::Occupied => refusals::occupied_refusal(x, at_owner(plan, arg)),
        Code::Freed => refusals::freed_refusal(x, at_owner(plan, arg)),
        Code::LinkLost => refusals::link_lost_refusal(seen, at),
        Code::LinkRestored => refusals::link_restored_refusal(seen, at),
        Code::Second => refusals::second_refusal(seen, at),
    }
}

// (02, Req 05) What 2012 adds: AFBLI and AFBLE exclude BILC, BSLG and BSLB; BILC and BSLB are refused where own is annulled.
// Two arms alike, not one pattern: a proof of both at once is not told which of them it was.
pub fn added_in_2012(plan: Plan, x: Situation, event: Event) -> Result<(), Refusal>
    ensures { told result ≡ added_in_2012 plan (unpacked x) event }
{
    let arg = event.argument;
    let section = section_of(arg);
    match Code::try_from(event.code) {
        Ok(Code::Afbli) => refusals::excluded_refusal(plan, x, station_named(arg)),
        Ok(Code::Afble) => refusals::excluded_refusal(plan, x, station_named(arg)),
        Ok(Code::Bilc) => refusals::annulled_refusal(x, station_named(arg)),
        Ok(Code::Bslb) => refusals::annulled_refusal(x, plan.owner(section as u16)),
        _ => Ok(()),
    }
}

// The event's own refusal, of a code that is known and an argument that is right. What 2012 adds comes "after all checks in 01".
pub fn own_refusal(plan: Plan, x: Situation, event: Event) -> Result<(), Refusal>
    ensures value { told result ≡ own_refusal plan (unpacked x) event }
    ensures in_order { told result ≡ own_run plan (unpacked x) event }
{
    refusal_in_2024(plan, x, event)?;
    if plan.rules2012 {
        return added_in_2012(plan, x, event);
    }
    Ok(())
}

// Where a section becoming occupied leads.
fn occupied_at(x: Situation, at: Spot) -> Situation
    ensures { unpacked result ≡ led_at Occupied at (unpacked x) }
{
    let own = at.own;
    let seen = x.seen_from(own);
    seen.occupied(at).seen_from(own)
}

// Where an accepted event leads. The arms stand here and in what refuses: a key asks that far more often than this.
pub fn next(plan: Plan, x: Situation, event: Event) -> Situation
    ensures { unpacked result ≡ reached plan (unpacked x) event }
{
    let Some(code) = Code::of(event.code) else {
        return x;
    };
    let arg = event.argument;
    let at = at_station(plan, arg);
    let own = at.own;
    let seen = x.seen_from(own);
    match code {
        Code::Sobb => seen.sobb(at).seen_from(own),
        Code::Cobb => seen.cobb(at).seen_from(own),
        Code::Afbli => seen.afbli(at).seen_from(own),
        Code::Afble => seen.afble(at).seen_from(own),
        Code::Dafbl => seen.dafbl(at).seen_from(own),
        Code::Bilc => seen.bilc(at).seen_from(own),
        Code::Dilc => seen.dilc(at).seen_from(own),
        Code::Bslg => seen.bslg(at).seen_from(own),
        Code::BslgOff => seen.bslg_off(at).seen_from(own),
        Code::Bslb => x.bslb(at_owner(plan, arg)),
        Code::BslbOff => x.bslb_off(at_owner(plan, arg)),
        Code::Reminder => seen.reminder(at).seen_from(own),
        Code::ReminderOff => seen.reminder_off(at).seen_from(own),
        Code::ExitNormal => seen.exit_normal(at).seen_from(own),
        Code::ExitSpecial => seen.exit_special(at).seen_from(own),
        Code::ExitReleased => seen.exit_released(at).seen_from(own),
        Code::Entry => seen.entry(at).seen_from(own),
        Code::EntryReleased => seen.entry_released(at).seen_from(own),
        Code::Occupied => occupied_at(x, at_owner(plan, arg)),
        Code::Freed => x.freed(at_owner(plan, arg)),
        Code::LinkLost => seen.link_lost(at).seen_from(own),
        Code::LinkRestored => seen.link_restored(at).seen_from(own),
        Code::Second => seen.second(at).seen_from(own),
    }
}

// What the refusal of an event names, asked after it: a section by its number, a station by 0 A, 1 B. Of those that 9 refuses, SOBB and COBB
// check any exit route. Any number may be asked, and 0 names nothing: the document's numbers, as the interface hands them on.
pub fn name_of(plan: Plan, x: Situation, event: Event, refusal: u8) -> u8
    ensures { result ≡ name plan (unpacked x) event refusal }
{
    if refusal == u8::from(Refusal::Occupied) {
        return lowest_occupied(plan, x);
    }
    if refusal == u8::from(Refusal::ExitRoute) {
        let any = (event.code == Code::Sobb as u8) | (event.code == Code::Cobb as u8);
        let own = station_named(event.argument);
        return route_holder(x, any, own) as u8;
    }
    0
}

// Refusals 3 unknown code, 4 argument, then the event's own, for a plan and a situation that are judged already.
fn refusal(plan: Plan, x: Situation, event: Event) -> Result<(), Refusal>
    ensures { told result ≡ (stepped plan (unpacked x) event).refusal }
{
    bytes_refusal(plan, event)?;
    own_refusal(plan, x, event)
}

// A refusal, with what it names, and the situation as it was.
fn handed_back(plan: Plan, x: Situation, event: Event, refusal: Refusal) -> HandedBack
    ensures { result ≡ record { refused = record { refusal = refusal; name = name plan (unpacked x) event (number refusal) }; situation = x } }
{
    let name = name_of(plan, x, event, refusal.into());
    HandedBack {
        refused: Refused { refusal, name },
        situation: x,
    }
}

// Refusals 1 plan, 2 situation not sound, 3 unknown code, 4 argument, then the event's own, with what it names. A refused event hands the
// situation back unchanged.
pub fn apply(plan: Plan, x: Situation, event: Event) -> Result<Situation, HandedBack>
    ensures result_value { outcome result ≡ applied plan (unpacked x) event }
    ensures name_value { named result ≡ name plan (unpacked x) event (outcome result).refusal }
{
    if let Err(refusal) = judged(plan, x) {
        return Err(handed_back(plan, x, event, refusal));
    }
    if let Err(refusal) = refusal(plan, x, event) {
        return Err(handed_back(plan, x, event, refusal));
    }
    let next = next(plan, x, event);
    Ok(next)
}
