// What the records share: two letters before so many bytes, and a count before items.
ghost use Rattle.std.specs.Prelude.{◌≡◌, ◌+◌, ◌*◌, ◌≤◌, length};
ghost use Rattle.records.specs.Sizes.{IsExtent, stands_with, fixed, counted};

use forms::Letters;

// What stands before the items of a list: two letters and a count.
pub(crate) const HEAD: usize = 3;

// Whether the letters stand at the front, with at least so many bytes after them. Letter by letter: a == would want two bytes made a value first.
pub(crate) fn stands(s: &[u8], letters: Letters, size: usize) -> bool
    ensures { result ≡ stands_with letters size s.now }
{
    let [first, second, rest @ ..] = s else {
        return false;
    };
    (*first == letters.first) & (*second == letters.second) & (size <= rest.len())
}

// How many bytes a record of two letters and so many bytes takes; None where it does not stand there.
pub(crate) fn fixed(s: &[u8], letters: Letters, size: usize) -> Option<usize>
    ensures { IsExtent (fixed letters size s.now) s.now result }
{
    if stands(s, letters, size) {
        return Some(2 + size);
    }
    None
}

// The same, with another promise, of two letters, a count, least to most, and so many items of so many bytes each.
pub(crate) fn counted(
    s: &[u8],
    letters: Letters,
    least: u8,
    most: u8,
    width: usize,
) -> Option<usize>
    requires { width ≤ 3 }
    ensures { IsExtent (counted letters least most width s.now) s.now result }
{
    if !stands(s, letters, 1) {
        return None;
    }
    let count = s[2];
    let used = HEAD + width * usize::from(count);
    if (least <= count) & (count <= most) & (used <= s.len()) {
        return Some(used);
    }
    None
}
