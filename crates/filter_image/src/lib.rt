// The filter image over lent bytes. `Range`: a subject above 8,191, or a range whose first passes its last. `BadImage`: a length other than 1,024.
#![tactic(auto)]

ghost use Rattle.std.specs.Prelude.{◌≡◌, false, ℕ, ◌+◌, ◌-◌, ◌*◌, ◌<◌, ◌≤◌, length};
ghost use Rattle.state.specs.Outcome.{answer};
ghost use Rattle.filter_image.specs.Inner.{checked};
ghost use Rattle.filter_image.specs.Image.{holds, image_of, none, without_range, bytes, opening, add_subject, remove_subject_range, has_subject};

use state::Refusal;

// The opening image: no subject is in it.
pub fn fresh() -> [u8; 1024]
    ensures { (result ≡ image_of none) × ((x : ℕ) → holds result x ≡ false) }
{
    [0; 1024]
}

#[tactic(auto, unfolding(crate::specs::Image::opening))]
pub fn open(s: &mut [u8]) -> Result<(), Refusal>
    ensures { (result ≡ answer (opening s.old)) × (s.new ≡ bytes s.old (opening s.old)) }
{
    if s.len() != 1024 {
        return Err(Refusal::BadImage);
    }
    s.copy_from_slice(&fresh());
    Ok(())
}

// That the subject is one, and then that the bytes have an image's length.
fn check(s: &[u8], subject: u32) -> Result<(), Refusal>
    ensures { result ≡ checked subject s.now }
{
    if 8191 < subject {
        Err(Refusal::Range)
    } else if s.len() == 1024 {
        Ok(())
    } else {
        Err(Refusal::BadImage)
    }
}

#[tactic(auto, using(crate::proofs::Changes::added), unfolding(crate::specs::Image::add_subject))]
pub fn add_subject(s: &mut [u8], subject: u32) -> Result<(), Refusal>
    ensures { (result ≡ answer (add_subject subject s.old)) × (s.new ≡ bytes s.old (add_subject subject s.old)) }
{
    check(s, subject)?;
    let x = subject as usize;
    let i = x / 8;
    s[i] |= 1u8 << (x % 8);
    Ok(())
}

// Takes out the subjects of byte i at its bits l to h.
#[tactic(auto, using(crate::proofs::Changes::cleared_bits))]
fn clear_bits(s: &mut [u8], i: usize, l: usize, h: usize)
    requires { (length s.old ≡ 1024) × ((i < 1024) × ((l < 8) × (h < 8))) }
    ensures { s.new ≡ image_of (without_range (8 * i + l) (8 * i + h) (holds s.old)) }
{
    s[i] &= !((255u8 << l) & (255u8 >> (7 - h)));
}

// Takes out the subjects of the bytes from `first` on, up to and without `end`.
#[tactic(auto, using(crate::proofs::Changes::cleared_none, crate::proofs::Changes::cleared_more))]
fn clear_bytes(s: &mut [u8], first: usize, end: usize)
    requires { (length s.old ≡ 1024) × ((0 < first) × ((first ≤ end) × (end ≤ 1024))) }
    ensures { s.new ≡ image_of (without_range (8 * first) (8 * end - 1) (holds s.old)) }
{
    for i in first..end {
        s[i] = 0;
    }
}

// Takes out the subjects a to z.
#[tactic(auto, using(crate::proofs::Changes::cleared_one, crate::proofs::Changes::cleared_over))]
fn clear(s: &mut [u8], a: usize, z: usize)
    requires { (length s.old ≡ 1024) × ((a ≤ z) × (z < 8192)) }
    ensures { s.new ≡ image_of (without_range a z (holds s.old)) }
{
    let first = a / 8;
    let last = z / 8;
    if first == last {
        clear_bits(s, first, a % 8, z % 8);
        return;
    }
    clear_bits(s, first, a % 8, 7);
    clear_bytes(s, first + 1, last);
    clear_bits(s, last, 0, z % 8);
}

#[tactic(auto, unfolding(crate::specs::Image::remove_subject_range))]
pub fn remove_subject_range(s: &mut [u8], first: u32, last: u32) -> Result<(), Refusal>
    ensures { (result ≡ answer (remove_subject_range first last s.old)) × (s.new ≡ bytes s.old (remove_subject_range first last s.old)) }
{
    if last < first {
        return Err(Refusal::Range);
    }
    check(s, last)?;
    clear(s, first as usize, last as usize);
    Ok(())
}

#[tactic(auto, unfolding(crate::specs::Image::has_subject))]
pub fn has_subject(s: &[u8], subject: u32) -> Result<bool, Refusal>
    ensures { result ≡ answer (has_subject subject s.now) }
{
    check(s, subject)?;
    let x = subject as usize;
    let i = x / 8;
    Ok((s[i] >> (x % 8)) % 2 == 1)
}
