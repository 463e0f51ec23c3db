// The interface for other languages: each function of crate folvkin under its C name, with its promise.
#![tactic(auto)]

ghost use Rattle.std.specs.Prelude.{◌≡◌};
ghost use Rattle.paper.specs.Given.{given};
ghost use Rattle.marking.specs.Typed.{typed_refusal, room_after};
ghost use Rattle.folvkin.specs.Block.{plan_refusal, situation_refusal, event_packed, event_room, reading_told, packed, aspects_told, aspects_room};
ghost use Rattle.folvkin.specs.Questions.{question_refusal, key_packed, key_room, run_packed};

#[unsafe(no_mangle)]
pub extern "C" fn folvkin_plan(plan: &[u8]) -> u8
    ensures { result ≡ plan_refusal plan.now }
{
    folvkin::block_calls::folvkin_plan(plan)
}

#[unsafe(no_mangle)]
pub extern "C" fn folvkin_situation(plan: &[u8], situation: &[u8]) -> u8
    ensures { result ≡ situation_refusal plan.now situation.now }
{
    folvkin::block_calls::folvkin_situation(plan, situation)
}

#[unsafe(no_mangle)]
pub extern "C" fn folvkin_event(plan: &[u8], situation: &[u8], event: &[u8], room: &mut [u8]) -> u64
    ensures value { result ≡ event_packed (given plan.now situation.now) event.now room.old }
    ensures room_after { room.new ≡ event_room (given plan.now situation.now) event.now room.old }
{
    folvkin::block_calls::folvkin_event(plan, situation, event, room)
}

#[unsafe(no_mangle)]
pub extern "C" fn folvkin_reading(plan: &[u8], situation: &[u8], kind_and_argument: &[u8]) -> u32
    ensures { result ≡ packed (reading_told (given plan.now situation.now) kind_and_argument.now) }
{
    folvkin::block_calls::folvkin_reading(plan, situation, kind_and_argument)
}

#[unsafe(no_mangle)]
pub extern "C" fn folvkin_aspects(plan: &[u8], situation: &[u8], room: &mut [u8]) -> u8
    ensures value { result ≡ aspects_told (given plan.now situation.now) room.old }
    ensures room_after { room.new ≡ aspects_room (given plan.now situation.now) room.old }
{
    folvkin::block_calls::folvkin_aspects(plan, situation, room)
}

#[unsafe(no_mangle)]
pub extern "C" fn folvkin_mark(
    kind: u8,
    amount: u32,
    speed: u32,
    tolerance: u32,
    unit: u8,
    pattern: u32,
    room: &mut [u8],
) -> u8
    ensures value { result ≡ typed_refusal kind amount speed tolerance unit room.old }
    ensures room_after { room.new ≡ room_after kind amount speed tolerance unit pattern room.old }
{
    folvkin::marking_calls::folvkin_mark(kind, amount, speed, tolerance, unit, pattern, room)
}

#[unsafe(no_mangle)]
pub extern "C" fn folvkin_question(bytes: &[u8]) -> u8
    ensures { result ≡ question_refusal bytes.now }
{
    folvkin::question_calls::folvkin_question(bytes)
}

#[unsafe(no_mangle)]
pub extern "C" fn folvkin_key(bytes: &[u8], after: &[u8], room: &mut [u8]) -> u64
    ensures value { result ≡ key_packed bytes.now after.now room.old }
    ensures room_after { room.new ≡ key_room bytes.now after.now room.old }
{
    folvkin::question_calls::folvkin_key(bytes, after, room)
}

#[unsafe(no_mangle)]
pub extern "C" fn folvkin_run(bytes: &[u8], slot: &[u8]) -> u64
    ensures { result ≡ run_packed bytes.now slot.now }
{
    folvkin::question_calls::folvkin_run(bytes, slot)
}
