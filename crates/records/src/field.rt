// A section field, low byte first.
ghost use Rattle.std.specs.Prelude.{◌≡◌, ◌^◌, ◌*◌, ◌≤◌, ◌<◌, length};
ghost use Rattle.forms.specs.Compose.{section};
ghost use Rattle.forms.specs.Taken.{value};

// The number that the bytes of a field say: as many as the field has, for which no from_le_bytes is.
pub fn section_field(field: &[u8]) -> u64
    requires { length field.now ≤ 7 }
    ensures value { result ≡ value 0 (section (length field.now)) field.now }
    ensures fits { result < 2 ^ (8 * length field.now) }
{
    let mut m = 0;
    for &byte in field.iter().rev() {
        m = u64::from(byte) + 256 * m;
    }
    m
}
