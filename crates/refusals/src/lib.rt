// What refuses each event, own being the station that the event names: "Checks run in the order written; the first that fails
// gives the refusal." Of AFBLI, AFBLE, BILC and BSLB what refuses it in 2024, and apart from it what 2012 adds.
// A function for each row of the table, also where two rows are alike or one check is all: each stands beside its row.
#![tactic(auto)]

ghost use Rattle.std.specs.Prelude.{◌≡◌, not, if◌then◌else◌};
ghost use Rattle.words.specs.Words.{◌and◌};
ghost use Rattle.block.specs.Refusals.{told};
ghost use Rattle.rulebook.specs.Situation.{station, ◌is_in, ◌annulled, ◌has_exit_route, track_free};
ghost use Rattle.rulebook.specs.Place.{held_in_area};
ghost use Rattle.rulebook.specs.Table.{Sobb, Cobb, Afbli, Afble, Dafbl, Bilc, Dilc, Bslg, BslgOff, Bslb, BslbOff, Reminder, ReminderOff, ExitNormal, ExitSpecial, ExitReleased, Entry, EntryReleased, Occupied, Freed, LinkLost, LinkRestored, Second};
ghost use Rattle.rulebook.specs.Apply.{refuses};
ghost use Rattle.rulebook.specs.Editions.{kind_in_2024};
ghost use Rattle.situation.specs.Packed.{unpacked};

use block::event::Spot;
use block::line::{Name, Plan};
use block::refused::{Refusal, refuse_if};
use sections::has;
use situation::Situation;

// What is inlined always would else be called, and the situation laid in memory for it before any other row is asked.
#[inline(always)]
pub fn sobb_refusal(x: Situation, at: Spot) -> Result<(), Refusal>
    ensures { told result ≡ refuses Sobb at (unpacked x) }
{
    let own = x.own();
    let pending = x.asks() | x.other_asks();
    let routed = x.any_exit_route();
    refuse_if(own.annulled(), Refusal::Annulled)?;
    refuse_if(!x.linked(), Refusal::LinkDown)?;
    refuse_if(pending, Refusal::Pending)?;
    refuse_if(routed, Refusal::ExitRoute)?;
    refuse_if(own.is_out(), Refusal::Oriented)
}

pub fn cobb_refusal(x: Situation, at: Spot) -> Result<(), Refusal>
    ensures { told result ≡ refuses Cobb at (unpacked x) }
{
    let own = x.own();
    refuse_if(own.annulled(), Refusal::Annulled)?;
    refuse_if(!x.linked(), Refusal::LinkDown)?;
    refuse_if(!x.other_asks(), Refusal::Pending)?;
    refuse_if(x.any_exit_route(), Refusal::ExitRoute)
}

pub fn afbli_refusal(x: Situation, at: Spot) -> Result<(), Refusal>
    ensures { told result ≡ refuses (kind_in_2024 Afbli) at (unpacked x) }
{
    let own = x.own();
    refuse_if(own.annulled(), Refusal::Annulled)?;
    refuse_if(x.asks(), Refusal::Pending)?;
    refuse_if(own.routed(), Refusal::ExitRoute)
}

pub fn afble_refusal(x: Situation, at: Spot) -> Result<(), Refusal>
    ensures { told result ≡ refuses (kind_in_2024 Afble) at (unpacked x) }
{
    let own = x.own();
    afbli_refusal(x, at)?;
    refuse_if(own.has_entry(), Refusal::EntryRoute)
}

pub fn dafbl_refusal(x: Situation, at: Spot) -> Result<(), Refusal>
    ensures { told result ≡ refuses Dafbl at (unpacked x) }
{
    let own = x.own();
    refuse_if(!own.annulled(), Refusal::Already)
}

pub fn bilc_refusal(x: Situation, at: Spot) -> Result<(), Refusal>
    ensures { told result ≡ refuses (kind_in_2024 Bilc) at (unpacked x) }
{
    let own = x.own();
    refuse_if(own.has_bilc(), Refusal::Already)?;
    refuse_if(own.routed(), Refusal::ExitRoute)
}

pub fn dilc_refusal(x: Situation, at: Spot) -> Result<(), Refusal>
    ensures { told result ≡ refuses Dilc at (unpacked x) }
{
    let own = x.own();
    refuse_if(!own.has_bilc(), Refusal::Already)
}

pub fn bslg_refusal(x: Situation, at: Spot) -> Result<(), Refusal>
    ensures { told result ≡ refuses Bslg at (unpacked x) }
{
    let own = x.own();
    refuse_if(own.has_bslg(), Refusal::Already)?;
    refuse_if(own.annulled(), Refusal::Annulled)
}

pub fn bslg_off_refusal(x: Situation, at: Spot) -> Result<(), Refusal>
    ensures { told result ≡ refuses BslgOff at (unpacked x) }
{
    let own = x.own();
    refuse_if(!own.has_bslg(), Refusal::Already)
}

pub fn bslb_refusal(x: Situation, at: Spot) -> Result<(), Refusal>
    ensures { told result ≡ refuses (kind_in_2024 Bslb) at (unpacked x) }
{
    let d = at.direction;
    refuse_if(has(x.held(d), at.section as u16), Refusal::Already)
}

pub fn bslb_off_refusal(x: Situation, at: Spot) -> Result<(), Refusal>
    ensures { told result ≡ refuses BslbOff at (unpacked x) }
{
    let d = at.direction;
    refuse_if(!has(x.held(d), at.section as u16), Refusal::Already)
}

pub fn reminder_refusal(x: Situation, at: Spot) -> Result<(), Refusal>
    ensures { told result ≡ refuses Reminder at (unpacked x) }
{
    let own = x.own();
    refuse_if(own.has_reminder(), Refusal::Already)
}

pub fn reminder_off_refusal(x: Situation, at: Spot) -> Result<(), Refusal>
    ensures { told result ≡ refuses ReminderOff at (unpacked x) }
{
    let own = x.own();
    refuse_if(!own.has_reminder(), Refusal::Already)
}

// Own is in and the line not free: 13 for an occupied section or a running count, then 15 for an exit route at the other station.
#[inline(always)]
fn check_line(x: Situation) -> Result<(), Refusal>
    ensures { told result ≡ (if (unpacked x).traffic.own is_in and not (track_free (unpacked x).traffic.track) then 13 else if (unpacked x).traffic.own is_in and (unpacked x).traffic.other has_exit_route then 15 else 0) }
{
    let own = x.own();
    let other = x.other();
    let inward = own.is_in();
    refuse_if(inward & !x.track_free(), Refusal::Occupied)?;
    refuse_if(inward & other.routed(), Refusal::OtherRoute)
}

#[inline(always)]
pub fn exit_normal_refusal(x: Situation, at: Spot) -> Result<(), Refusal>
    ensures { told result ≡ refuses ExitNormal at (unpacked x) }
{
    let own = x.own();
    let none = !(own.is_out() | own.is_in());
    refuse_if(own.routed(), Refusal::Already)?;
    refuse_if(own.has_bilc(), Refusal::Bilc)?;
    refuse_if(own.annulled(), Refusal::Annulled)?;
    refuse_if(own.has_reminder(), Refusal::Reminder)?;
    refuse_if(!x.linked(), Refusal::LinkDown)?;
    refuse_if(none, Refusal::Oriented)?;
    check_line(x)
}

#[inline(always)]
pub fn exit_special_refusal(x: Situation, at: Spot) -> Result<(), Refusal>
    ensures { told result ≡ refuses ExitSpecial at (unpacked x) }
{
    let own = x.own();
    let none = !(own.is_out() | own.is_in());
    refuse_if(own.routed(), Refusal::Already)?;
    refuse_if(own.has_bilc(), Refusal::Bilc)?;
    if own.under_afble() {
        return Ok(());
    }
    refuse_if(own.annulled(), Refusal::Annulled)?;
    refuse_if(!x.linked(), Refusal::LinkDown)?;
    refuse_if(none, Refusal::Oriented)?;
    check_line(x)
}

pub fn exit_released_refusal(x: Situation, at: Spot) -> Result<(), Refusal>
    ensures { told result ≡ refuses ExitReleased at (unpacked x) }
{
    let own = x.own();
    refuse_if(!own.routed(), Refusal::Already)
}

pub fn entry_refusal(x: Situation, at: Spot) -> Result<(), Refusal>
    ensures { told result ≡ refuses Entry at (unpacked x) }
{
    let own = x.own();
    refuse_if(own.has_entry(), Refusal::Already)
}

pub fn entry_released_refusal(x: Situation, at: Spot) -> Result<(), Refusal>
    ensures { told result ≡ refuses EntryReleased at (unpacked x) }
{
    let own = x.own();
    refuse_if(!own.has_entry(), Refusal::Already)
}

pub fn occupied_refusal(x: Situation, at: Spot) -> Result<(), Refusal>
    ensures { told result ≡ refuses Occupied at (unpacked x) }
{
    refuse_if(has(x.occupied, at.section as u16), Refusal::Already)
}

pub fn freed_refusal(x: Situation, at: Spot) -> Result<(), Refusal>
    ensures { told result ≡ refuses Freed at (unpacked x) }
{
    refuse_if(!has(x.occupied, at.section as u16), Refusal::Already)
}

pub fn link_lost_refusal(x: Situation, at: Spot) -> Result<(), Refusal>
    ensures { told result ≡ refuses LinkLost at (unpacked x) }
{
    refuse_if(!x.linked(), Refusal::Already)
}

pub fn link_restored_refusal(x: Situation, at: Spot) -> Result<(), Refusal>
    ensures { told result ≡ refuses LinkRestored at (unpacked x) }
{
    refuse_if(x.linked(), Refusal::Already)
}

// A second is always accepted.
pub fn second_refusal(x: Situation, at: Spot) -> Result<(), Refusal>
    ensures { told result ≡ refuses Second at (unpacked x) }
{
    Ok(())
}

// (02, Req 05) "2012 only: for AFBLI and AFBLE after all checks in 01, 11 BILC, 16 BSLG, 17 BSLB, in that order", at the station s.
pub fn excluded_refusal(plan: Plan, x: Situation, s: Name) -> Result<(), Refusal>
    ensures { told result ≡ (if (station (unpacked x) s).bilc then 11 else if (station (unpacked x) s).bslg then 16 else if held_in_area plan s (unpacked x) then 17 else 0) }
{
    let own = x.station(s);
    refuse_if(own.has_bilc(), Refusal::Bilc)?;
    refuse_if(own.has_bslg(), Refusal::Bslg)?;
    refuse_if(x.held_in_area(plan, s), Refusal::Bslb)
}

// "2012 only: .. for BILC and BSLB, 8 own annulled, after all else", own being the station s.
pub fn annulled_refusal(x: Situation, s: Name) -> Result<(), Refusal>
    ensures { told result ≡ (if station (unpacked x) s annulled then 8 else 0) }
{
    let own = x.station(s);
    refuse_if(own.annulled(), Refusal::Annulled)
}
