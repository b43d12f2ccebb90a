// Looking up a key and an entry.
ghost use Rattle.std.specs.Prelude.{◌≡◌, true, ◌+◌, ◌*◌, ◌<◌, ◌≤◌, length};
ghost use Rattle.index_entries.specs.Keys.{slot, found};
ghost use Rattle.index_entries.specs.Bytes.{word_at, entries, value, read, whole_b};
ghost use Rattle.index_entries.specs.Inner.{index_of, held_of};

// What an entry holds: a key and its value; a key whose value was handed back; nothing.
// Three names read plainer than `Option<(u16, Option<u32>)>`, and each keeps its key.
#[derive(Clone, Copy, Debug, PartialEq, Eq)]
pub enum Held {
    Value(u16, u32),
    Spent(u16),
    Free,
}

pub fn word(s: &[u8], a: usize) -> u16
    requires { a + 1 < length s.now }
    ensures { result ≡ word_at s.now a }
{
    u16::from_le_bytes([s[a], s[a + 1]])
}

// Where the lists end, which begin at byte 2.
pub fn lists_end(s: &[u8]) -> usize
    requires { whole_b s.now ≡ true }
    ensures { (result ≡ 8 + 2 * entries s.now) × (result ≤ length s.now) }
{
    8 + 2 * usize::from(s[3])
}

// The entry that has the key, if any.
#[tactic(auto, using(crate::proofs::Sizes::sizes, crate::proofs::Held::looks))]
pub fn get_index(s: &[u8], key: u16) -> Option<usize>
    requires { whole_b s.now ≡ true }
    ensures { result ≡ index_of (found (read s.now) key) }
{
    if word(s, 0) < key {
        return None;
    }
    let n = usize::from(s[3]);
    let i = usize::from(s[8 + 8 * n + usize::from(key)]);
    (i < n).then_some(i)
}

// The value of the entry `i`.
pub fn value_at(s: &[u8], i: usize) -> u32
    requires { (whole_b s.now ≡ true) × (i < entries s.now) }
    ensures { result ≡ value (entries s.now) s.now i }
{
    let n = usize::from(s[3]);
    let low = word(s, 8 + 4 * n + 4 * i);
    let high = word(s, 10 + 4 * n + 4 * i);
    u32::from(low) + 65536 * u32::from(high)
}

#[tactic(auto, using(crate::proofs::Sizes::sizes, crate::proofs::Held::looks))]
pub fn held_at(s: &[u8], i: usize) -> Held
    requires { (whole_b s.now ≡ true) × (i < entries s.now) }
    ensures { result ≡ held_of (slot (read s.now) i) }
{
    let n = usize::from(s[3]);
    let w = word(s, 8 + 2 * n + 2 * i);
    if w < 8192 {
        Held::Value(w, value_at(s, i))
    } else if w < 16384 {
        Held::Spent(w - 8192)
    } else {
        Held::Free
    }
}
