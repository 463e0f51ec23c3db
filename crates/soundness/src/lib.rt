// A plan and a situation in it, judged. A test for each clause of the document.
#![tactic(auto)]

ghost use Rattle.std.specs.Prelude.{◌≡◌};
ghost use Rattle.words.specs.Words.{◌and◌};
ghost use Rattle.rulebook.specs.Sound.{station_sound, link_up_agrees, link_down_apart, may_ask, pending_sound, sets_sound, watch_sound, such_a_pair, sound_in_2024, exclusions_kept, sound};
ghost use Rattle.rulebook.specs.Judged.{judged};
ghost use Rattle.block.specs.Refusals.{told};
ghost use Rattle.situation.specs.Packed.{station, unpacked};

use block::line::{Direction, Name, Plan};
use block::refused::{Refusal, refuse_if};
use sections::{has, sections_up_to};
use situation::{Situation, Station};

// Every clause on a station.
fn all_clauses_hold(t: Station) -> bool
    ensures { result ≡ station_sound (station t) }
{
    let exit = t.exit_route();
    let none = !(t.is_out() | t.is_in());
    let codes_in_range = !(t.is_out() & t.is_in())
        & !(t.under_afbli() & t.under_afble())
        & !(exit.normal & exit.special);
    let annulled_is_none = !t.annulled() | none;
    let routed_is_open = !t.routed() | (!t.has_bilc() & !t.is_in());
    let normal_not_annulled = !exit.normal | !t.annulled();
    let special_not_afbli = !exit.special | !t.under_afbli();
    codes_in_range & annulled_is_none & routed_is_open & normal_not_annulled & special_not_afbli
}

// Of a station that is not annulled and has no exit route only the orientation's code is asked.
fn station_sound(t: Station) -> bool
    ensures { result ≡ station_sound (station t) }
{
    if t.annulled() | t.routed() {
        return all_clauses_hold(t);
    }
    !(t.is_out() & t.is_in())
}

// One clause is for link up, the other for link down.
fn orientations_sound(x: Situation) -> bool
    ensures { result ≡ (link_up_agrees (unpacked x) and link_down_apart (unpacked x)) }
{
    let own = x.own();
    let other = x.other();
    if x.linked() {
        let none = !(own.is_out() | own.is_in()) & !(other.is_out() | other.is_in());
        return x.one_out_one_in() | none;
    }
    !(own.is_out() & other.is_out()) & !(own.is_in() & other.is_in())
}

fn may_ask(x: Situation, t: Station) -> bool
    ensures { result ≡ may_ask (unpacked x) (station t) }
{
    x.linked() & !t.annulled() & !t.is_out()
}

fn pending_sound(x: Situation) -> bool
    ensures { result ≡ pending_sound (unpacked x) }
{
    if x.asks() | x.other_asks() {
        let own = may_ask(x, x.own());
        let other = may_ask(x, x.other());
        return !(x.asks() & x.other_asks()) & (!x.asks() | own) & (!x.other_asks() | other);
    }
    true
}

// No set names what is no section, and the exit signals, of section 1 towards B and of section n towards A, are not held.
fn sets_sound(plan: Plan, x: Situation) -> bool
    ensures { result ≡ sets_sound plan (unpacked x) }
{
    let heldb = x.held(Direction::TowardsB);
    let helda = x.held(Direction::TowardsA);
    if !sections_up_to(x.occupied | heldb | helda, plan.sections) {
        return false;
    }
    if has(heldb, 1) {
        return false;
    }
    !has(helda, plan.sections as u16)
}

// A count up to 10, above 0 only with the mark set and no section occupied; a mark only with no exit route and either a section occupied or a
// count above 0. Where there is neither, nothing is asked.
fn watch_sound(x: Situation) -> bool
    ensures { result ≡ watch_sound (unpacked x) }
{
    if x.marked() | x.count_runs() {
        let none = x.occupied == 0;
        let count_in_range = x.count() <= 10;
        let count_explained = !x.count_runs() | (x.marked() & none);
        let mark_explained = !x.marked() | (!x.any_exit_route() & (!none | x.count_runs()));
        return count_in_range & count_explained & mark_explained;
    }
    true
}

fn sound_in_2024(plan: Plan, x: Situation) -> bool
    ensures { result ≡ sound_in_2024 plan (unpacked x) }
{
    if !watch_sound(x) {
        return false;
    }
    if !sets_sound(plan, x) {
        return false;
    }
    if !pending_sound(x) {
        return false;
    }
    if !orientations_sound(x) {
        return false;
    }
    if !station_sound(x.own()) {
        return false;
    }
    station_sound(x.other())
}

// AFBLI or AFBLE with BILC, BSLG, or BSLB in the station's own area, of the station t, which is s.
fn such_a_pair(plan: Plan, s: Name, t: Station, x: Situation) -> bool
    ensures { result ≡ such_a_pair plan s (station t) (unpacked x) }
{
    if t.annulled() {
        return t.has_bilc() | t.has_bslg() | x.held_in_area(plan, s);
    }
    false
}

// "In that edition a situation with such a pair is not sound."
fn exclusions_kept(plan: Plan, x: Situation) -> bool
    ensures { result ≡ exclusions_kept plan (unpacked x) }
{
    if plan.rules2012 {
        let a = such_a_pair(plan, Name::StationA, x.own(), x);
        let b = such_a_pair(plan, Name::StationB, x.other(), x);
        return !(a | b);
    }
    true
}

fn sound(plan: Plan, x: Situation) -> bool
    ensures { result ≡ sound plan (unpacked x) }
{
    if sound_in_2024(plan, x) {
        return exclusions_kept(plan, x);
    }
    false
}

// Refused where the plan is none, or the situation not sound in it.
pub fn judged(plan: Plan, x: Situation) -> Result<(), Refusal>
    ensures { told result ≡ judged plan (unpacked x) }
{
    refuse_if(!plan.is_plan(), Refusal::NoPlan)?;
    refuse_if(!sound(plan, x), Refusal::NotSound)
}
