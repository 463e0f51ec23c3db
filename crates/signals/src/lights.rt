// The aspects of all signals of a direction at once, as sets of their sections, and of one signal, read off them. The situation is kept as
// A sees it.
ghost use Rattle.std.specs.Prelude.{◌≡◌, true, if◌then◌else◌};
ghost use Rattle.sections.specs.Sections.{only};
ghost use Rattle.block.specs.Line.{is_plan, first_section};
ghost use Rattle.block.specs.declared.line.Direction.TheVariants.{TowardsA, TowardsB};
ghost use Rattle.situation.specs.Packed.{unpacked};
ghost use Rattle.aspects.specs.Aspects.{is_open, aspect};
ghost use Rattle.signals.specs.SignalSets.{Those, OffLine, block_lit, exit_lit, runs_somewhere, next_open, is_green, OnEdge, Moved, shown, shown_at, code_of};

use block::line::{Direction, Name, Plan, direction_of, section_of};
use sections::{both, either, given, has, minus, one_down, one_up, single};
use situation::Situation;

// What a signal shows.
#[derive(Clone, Copy, Debug, PartialEq, Eq)]
pub enum Aspect {
    Red = 0,
    Yellow = 1,
    Green = 2,
}

impl From<Aspect> for u8 {
    ghost use Rattle.signals.specs.SignalSets.{code_of};

    ghost from_gives = { λ aspect code. code ≡ code_of aspect };

    fn from(aspect: Aspect) -> u8 {
        aspect as u8
    }
}

// The signals of a direction that are not red, and those that are green, by their sections.
#[derive(Clone, Copy, Debug, PartialEq, Eq)]
pub struct Lights {
    pub open: u64,
    pub green: u64,
}

// The signals of a direction, on a plan that is one.
#[derive(Clone, Copy)]
struct View {
    plan: Plan,
    situation: Situation,
    towards: Direction,
    ghost is_plan: { is_plan plan ≡ true },
}

// Inlined, so that the direction is known in each.
impl View {
    // The first section of station s alone.
    #[inline(always)]
    fn first(self, s: Name) -> u64
        ensures { result ≡ only (first_section self.plan s) }
    {
        let k = self.plan.first_section(s);
        single(k)
    }

    // A block signal's area direction is its own, its station has no BSLG, and BSLB does not hold it. Trains leave the area of the station
    // where they enter the line, and arrive in the other.
    #[inline(always)]
    fn block_lit(self) -> u64
        ensures { Those self.plan (block_lit self.plan (unpacked self.situation) self.towards) result × OffLine self.plan result }
    {
        let s = self.towards.entrance();
        let t = self.towards.terminus();
        let from = self.situation.station(s);
        let to = self.situation.station(t);
        let leaves = from.area_direction().out & !from.has_bslg();
        let arrives = to.area_direction().inward & !to.has_bslg();
        let lit = either(
            given(leaves, self.plan.area(s)),
            given(arrives, self.plan.area(t)),
        );
        minus(lit, self.situation.held(self.towards))
    }

    // The exit signal's station has an exit route, and the area direction is out.
    #[inline(always)]
    fn exit_lit(self) -> u64
        ensures { Those self.plan (exit_lit self.plan (unpacked self.situation) self.towards) result × OffLine self.plan result }
    {
        let s = self.towards.entrance();
        let t = self.situation.station(s);
        let routed = t.routed();
        let way = t.area_direction();
        given(routed & way.out, self.first(s))
    }

    // Whether trains run in that direction anywhere on the line.
    #[inline(always)]
    fn runs(self) -> bool
        ensures { result ≡ runs_somewhere (unpacked self.situation) self.towards }
    {
        let s = self.towards.entrance();
        let t = self.towards.terminus();
        let here = self.situation.station(s).area_direction();
        let there = self.situation.station(t).area_direction();
        here.out | there.inward
    }

    // The signals that are not red: of the first section the exit signal, of the others the block signals. Where no train runs that way,
    // there is none.
    #[inline(always)]
    fn open_signals(self) -> u64
        ensures { Those self.plan (is_open self.plan (unpacked self.situation) self.towards) result × OffLine self.plan result }
    {
        if !self.runs() {
            return 0;
        }
        let s = self.towards.entrance();
        let blocks = self.block_lit();
        let exit = self.exit_lit();
        let lit = either(minus(blocks, self.first(s)), exit);
        minus(lit, self.situation.occupied)
    }

    // The sections whose next one in that direction is in m.
    #[tactic(auto, using(crate::proofs::LitLaws::moved_A, crate::proofs::LitLaws::moved_B))]
    #[inline(always)]
    fn next_in(self, m: u64) -> u64
        ensures { Moved self.towards m result }
    {
        match self.towards {
            Direction::TowardsA => one_up(m),
            Direction::TowardsB => one_down(m),
        }
    }

    // The section whose next one in that direction lies across the frontier.
    #[inline(always)]
    fn edge(self) -> u8
        ensures { OnEdge self.plan self.towards result }
    {
        match self.towards {
            Direction::TowardsA => self.plan.frontier + 1,
            Direction::TowardsB => self.plan.frontier,
        }
    }

    // The signals whose next one is not red, m being those that are not red themselves. The next after the last is the entry signal; a
    // next signal across the frontier is read as red when link is down.
    #[inline(always)]
    fn next_open(self, m: u64) -> u64
        requires { Those self.plan (is_open self.plan (unpacked self.situation) self.towards) m }
        ensures { Those self.plan (next_open self.plan (unpacked self.situation) self.towards) result }
    {
        let t = self.towards.terminus();
        let last = self.first(t);
        let station = self.situation.station(t);
        let entered = given(station.has_entry(), last);
        let unseen = given(!self.situation.linked(), single(self.edge()));
        let next = minus(self.next_in(m), unseen);
        either(minus(next, last), entered)
    }

    // That m is the open signals is asked, not kept by a type: it is a word as every set.
    // The green signals, m being those that are not red: a signal that is not red is yellow if the next one is red and green otherwise.
    #[inline(always)]
    fn green_signals(self, m: u64) -> u64
        requires { Those self.plan (is_open self.plan (unpacked self.situation) self.towards) m }
        ensures { Those self.plan (is_green self.plan (unpacked self.situation) self.towards) result }
    {
        let next = self.next_open(m);
        both(m, next)
    }
}

// What all signals of a direction show. Callers hold a plan that is judged and a situation: a view would be built at each of them, for the
// same proof.
#[inline(always)]
pub fn all_lights(plan: Plan, x: Situation, d: Direction) -> Lights
    requires { is_plan plan ≡ true }
    ensures { Those plan (is_open plan (unpacked x) d) result.open × Those plan (is_green plan (unpacked x) d) result.green }
{
    let view = View {
        plan,
        situation: x,
        towards: d,
    };
    let open = view.open_signals();
    let green = view.green_signals(open);
    Lights { open, green }
}

// The signal over section k. The direction is a const parameter, so that the compiler knows it. The green set is made only where the signal is
// open, so this is not read off both sets.
fn aspect_over<const TOWARDS_A: bool>(plan: Plan, x: Situation, k: u8) -> Aspect
    requires { is_plan plan ≡ true }
    ensures { code_of result ≡ shown_at plan (unpacked x) (if TOWARDS_A then TowardsA else TowardsB) k }
{
    let view = View {
        plan,
        situation: x,
        towards: if TOWARDS_A {
            Direction::TowardsA
        } else {
            Direction::TowardsB
        },
    };
    let open = view.open_signals();
    if !has(open, u16::from(k)) {
        return Aspect::Red;
    }
    let green = view.green_signals(open);
    if has(green, u16::from(k)) {
        return Aspect::Green;
    }
    Aspect::Yellow
}

// The aspect of a signal, for a plan and a situation that are judged already.
#[tactic(auto, using(crate::proofs::TwoSignals::aspect_told))]
pub fn aspect_of(plan: Plan, x: Situation, signal: u8) -> Aspect
    requires { is_plan plan ≡ true }
    ensures { code_of result ≡ aspect plan (unpacked x) signal }
{
    let k = section_of(signal);
    match direction_of(signal) {
        Direction::TowardsA => aspect_over::<true>(plan, x, k),
        Direction::TowardsB => aspect_over::<false>(plan, x, k),
    }
}

impl Lights {
    // What the signal over section k shows.
    pub fn shown(self, k: u8) -> Aspect
        ensures { code_of result ≡ shown self k }
    {
        if !has(self.open, u16::from(k)) {
            return Aspect::Red;
        }
        if has(self.green, u16::from(k)) {
            return Aspect::Green;
        }
        Aspect::Yellow
    }
}

// Its number, by a sum and no choice: all signals of a line are asked so, and by the method above each takes two instructions more.
pub fn shown(l: Lights, k: u8) -> u8
    ensures { result ≡ shown l k }
{
    let open = has(l.open, u16::from(k));
    let green = has(l.green, u16::from(k));
    u8::from(open) + u8::from(open & green)
}
