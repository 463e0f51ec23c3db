// Bytes copied to the front of a room that is lent.
#![tactic(auto)]

ghost use Rattle.std.specs.Prelude.{◌≡◌, ◌≤◌, ◌++◌, length, drop};

// How many bytes were copied: all of them, so that who copies next knows where. The room keeps what lies after them.
pub fn copy(from: &[u8], to: &mut [u8]) -> usize
    requires { length from.now ≤ length to.old }
    ensures count { result ≡ length from.now }
    ensures copied { to.new ≡ from.now ++ drop (length from.now) to.old }
{
    let n = from.len();
    to[..n].copy_from_slice(from);
    n
}
