// The lengths of the kinds of state, why a call is refused, and the form that all calls on state bytes share: specs/ has the definitions.
#![tactic(auto)]

ghost use Rattle.std.specs.Prelude.{◌≡◌, ◌<◌, length, replicate};
ghost use Rattle.state.specs.Refusals.{entry_of, up_to};
ghost use Rattle.state.specs.Lengths.{Disjoint};

use std::marker::Model;

/// Why a call is refused.
#[derive(Clone, Copy, Debug, PartialEq, Eq)]
pub enum Refusal {
    /// The bytes are not a whole state of the kind.
    NotWhole,
    /// An entry above 127.
    EntryRange,
    /// A subject, service, priority, mtu or number of slots out of its range, or a range whose first passes its last.
    Range,
    /// A filter image of another length.
    BadImage,
    /// The entry is registered already.
    Registered,
    /// No subject slot is left.
    NoSubjectSlot,
    /// The service or the subject has an entry.
    Occupied,
    /// The entry is not registered.
    NotRegistered,
    /// The slot counter would pass 65,535.
    SlotsFull,
    /// A pick is open.
    PickOpen,
    /// No pick is open.
    NoPick,
    /// The frame does not fit the pick.
    BadFrame,
    /// A class or an entry past the size, or sizes that are not allowed.
    Size,
    /// An insert's key and value: the key is past the last, or new and no entry is free.
    NotTaken(u16, u32),
    /// The key has no entry.
    NoKey,
    /// The key's value was handed back.
    ValueGone,
    /// A line is no call.
    NoCall,
}

impl From<Refusal> for u8 {
    ghost use Rattle.state.specs.Refusals.{number};

    ghost from_gives = { λ refusal n. n ≡ number refusal };

    fn from(refusal: Refusal) -> u8 {
        match refusal {
            Refusal::NotWhole => 1,
            Refusal::EntryRange => 2,
            Refusal::Range => 3,
            Refusal::BadImage => 4,
            Refusal::Registered => 5,
            Refusal::NoSubjectSlot => 6,
            Refusal::Occupied => 7,
            Refusal::NotRegistered => 8,
            Refusal::SlotsFull => 9,
            Refusal::PickOpen => 10,
            Refusal::NoPick => 11,
            Refusal::BadFrame => 12,
            Refusal::Size => 13,
            Refusal::NotTaken(_, _) => 14,
            Refusal::NoKey => 15,
            Refusal::ValueGone => 16,
            Refusal::NoCall => 17,
        }
    }
}

/// A registry's entry: 0 to 127.
#[derive(Clone, Copy, Debug, PartialEq, Eq)]
pub struct Entry(u8);

impl Model for Entry {
    ghost use Rattle.std.specs.Prelude.{ℕ, ◌<◌};

    ghost Value = { ℕ };

    ghost view = { λ e. e.0 };

    ghost invariant = { λ e. e.0 < 128 };

    ghost inverse = { λ n. record { 0 = n } };
}

impl Entry {
    pub fn number(self) -> u8
        ensures same { result ≡ self }
        ensures small { result < 128 }
    {
        self.0
    }
}

impl TryFrom<u32> for Entry {
    type Error = Refusal;

    ghost try_from_gives = { λ number r. r ≡ entry_of number };

    fn try_from(number: u32) -> Result<Self, Refusal> {
        if 127 < number {
            Err(Refusal::EntryRange)
        } else {
            Ok(Entry(number as u8))
        }
    }
}

/// A number from 0 to `most`.
pub fn up_to(most: u16, number: u32) -> Result<u16, Refusal>
    ensures { result ≡ up_to most number }
{
    if (most as u32) < number {
        Err(Refusal::Range)
    } else {
        Ok(number as u16)
    }
}

// Does nothing: its contract is the theorem that no length is that of two kinds.
pub fn lengths_disjoint()
    ensures { Disjoint }
{}

// Every byte becomes v. It stays a function beside std's method: a must-fail edit breaks it, and each edit is kept.
pub fn fill(s: &mut [u8], v: u8)
    ensures { s.new ≡ replicate (length s.old) v }
{
    s.fill(v);
}

// `to` becomes `from`, of the same length. It stays for the same reason.
pub fn copy(from: &[u8], to: &mut [u8])
    requires { length from.now ≡ length to.old }
    ensures { to.new ≡ from.now }
{
    to.copy_from_slice(from);
}
