// The call that a line is.
ghost use Rattle.std.specs.Prelude.{◌≡◌, ◌≤◌, length, option_map};
ghost use Rattle.std.specs.List.{prefix_len};
ghost use Rattle.std.specs.Char.{is_ascii_digit};
ghost use Rattle.std.specs.Str.Parse.{AllDigits, digits_value};
ghost use Rattle.calls_line.specs.Lines.{argument, last_argument, parsed};

use std::str;

/// A call: `Register` has the entry and the subject, `Unregister` the entry, `Walk` the subject.
#[derive(Clone, Copy, Debug, PartialEq, Eq)]
pub enum Call {
    Register(u32, u32),
    Unregister(u32),
    Poll,
    Walk(u32),
}

// The number that 1 to 5 digits write.
#[tactic(auto, using(crate::proofs::ReadLaws::digits_read))]
fn digits_value(digits: &[u8]) -> u32
    requires { AllDigits 10 digits.now × (1 ≤ length digits.now) × (length digits.now ≤ 5) }
    ensures { result ≡ digits_value 10 digits.now }
{
    str::from_utf8(digits).unwrap().parse().unwrap()
}

// How many digits a text begins with.
fn digits_len(text: &[u8]) -> usize
    ensures value { result ≡ prefix_len is_ascii_digit text.now }
    ensures within { result ≤ length text.now }
{
    text.iter().take_while(|byte| byte.is_ascii_digit()).count()
}

// A blank and a number of 1 to 5 digits: the number, and what follows.
#[tactic(auto, using(crate::proofs::ReadLaws::first_digits), unfolding(crate::specs::Lines::argument))]
fn argument(text: &[u8]) -> Option<(u32, &[u8])>
    ensures { option_map (λ r. (r.0, r.1.now)) result ≡ argument text.now }
{
    let [b' ', rest @ ..] = text else {
        return None;
    };
    let count = digits_len(rest);
    if !(1..=5).contains(&count) {
        return None;
    }
    let (digits, rest) = rest.split_at(count);
    Some((digits_value(digits), rest))
}

// The same with nothing after it.
fn last_argument(text: &[u8]) -> Option<u32>
    ensures { result ≡ last_argument text.now }
{
    match argument(text)? {
        (number, []) => Some(number),
        _ => None,
    }
}

#[tactic(auto, unfolding(crate::specs::Lines::parsed))]
pub fn parse(text: &[u8]) -> Option<Call>
    ensures { result ≡ parsed text.now }
{
    if 31 < text.len() {
        return None;
    }
    match text {
        [b'R', rest @ ..] => {
            let (entry, rest) = argument(rest)?;
            Some(Call::Register(entry, last_argument(rest)?))
        }
        [b'U', rest @ ..] => Some(Call::Unregister(last_argument(rest)?)),
        b"P" => Some(Call::Poll),
        [b'W', rest @ ..] => Some(Call::Walk(last_argument(rest)?)),
        _ => None,
    }
}
