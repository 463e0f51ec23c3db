// The form of a slot, and of a place to continue after.
ghost use Rattle.std.specs.Prelude.{◌≡◌, ◌≤◌, ◌==◌};
ghost use Rattle.std.specs.List.{list_all};
ghost use Rattle.keylaws.specs.Slots.{filled, is_place, is_slot};
ghost use Rattle.keylaws.specs.Continuation.{is_continuation};

// The bytes of a slot.
pub const SLOT: usize = 6;

// The first byte of a continuation from the start. A byte, not an enum: a continuation is six bytes of the interface.
pub const FROM_START: u8 = 255;

// One of n events.
fn is_place(n: u8, p: u8) -> bool
    ensures { result ≡ is_place n p }
{
    (1..=n).contains(&p)
}

// Places of n events, all of them.
fn are_places(n: u8, bytes: &[u8]) -> bool
    ensures { result ≡ list_all (is_place n) bytes.now }
{
    bytes.iter().all(|p| is_place(n, *p))
}

fn are_zero(bytes: &[u8]) -> bool
    ensures { result ≡ list_all (λ b. b == 0) bytes.now }
{
    bytes.iter().all(|b| *b == 0)
}

// So many places of n events, then zeros.
fn is_filled(n: u8, count: u8, bytes: &[u8]) -> bool
    ensures { result ≡ filled n count bytes.now }
{
    match bytes.split_at_checked(usize::from(count)) {
        Some((places, zeros)) => are_places(n, places) && are_zero(zeros),
        None => false,
    }
}

// A slot with length and places within the question: at most `limit` of n events.
pub fn is_slot(n: u8, limit: u8, x: &[u8]) -> bool
    ensures { result ≡ is_slot n limit x.now }
{
    if x.len() != SLOT {
        return false;
    }
    let count = x[0];
    if limit < count {
        return false;
    }
    is_filled(n, count, &x[1..])
}

// A slot, an answer or not, with length and places within the question; or 255 and five zeros: from the start.
pub fn is_continuation(n: u8, limit: u8, x: &[u8]) -> bool
    requires { limit ≤ 5 }
    ensures { result ≡ is_continuation n limit x.now }
{
    if x.len() != SLOT {
        return false;
    }
    if x[0] == FROM_START {
        return is_filled(0, 0, &x[1..]);
    }
    is_slot(n, limit, x)
}
