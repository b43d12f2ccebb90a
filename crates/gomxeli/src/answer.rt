// Answers as one number each, laid out as specs/Answers.antt has it.
ghost use Rattle.std.specs.Prelude.{◌≡◌, ℕ};
ghost use Rattle.state.specs.Seq.{to_nat};
ghost use Rattle.gomxeli.specs.Answers.{packed, done, flag, answered, option_first, option_second, pushed, updates, picked, settled, priority_answer, eot_answer};

use emcyphal_core::{Priority, PrioritySet};
use entry_tree::walk::Pushed;
use regular::FilterUpdate;
use state::Refusal;
use tx_queue::{Picked, Settled};

/// What C gets of an answer: one number.
pub trait Answer {
    ghost packed: { Self → ℕ };

    fn pack(self) -> u64
        ensures { result ≡ packed self };
}

impl Answer for () {
    ghost packed = { done };

    fn pack(self) -> u64 {
        pack(0, 0, 0, 0)
    }
}

impl Answer for bool {
    ghost packed = { flag };

    fn pack(self) -> u64 {
        pack(0, u8::from(self), 0, 0)
    }
}

// An entry, a class, a key or an id is the first field, and a value the second.
impl Answer for Option<u8> {
    ghost packed = { option_first };

    fn pack(self) -> u64 {
        self.map(u16::from).pack()
    }
}

impl Answer for Option<u16> {
    ghost packed = { option_first };

    fn pack(self) -> u64 {
        match self {
            Some(id) => pack(0, 1, id, 0),
            None => pack(0, 0, 0, 0),
        }
    }
}

impl Answer for Option<u32> {
    ghost packed = { option_second };

    fn pack(self) -> u64 {
        match self {
            Some(value) => pack(0, 1, 0, value),
            None => pack(0, 0, 0, 0),
        }
    }
}

// The entry is the first field, and the second is 1 where more follow.
impl Answer for Option<Pushed> {
    ghost packed = { pushed };

    fn pack(self) -> u64 {
        match self {
            Some(pushed) => pack(0, 1, u16::from(pushed.entry), u32::from(pushed.more)),
            None => pack(0, 0, 0, 0),
        }
    }
}

// The subject added is the first field; of a range removed, the first subject and the last are the two.
impl Answer for Option<FilterUpdate> {
    ghost packed = { updates };

    fn pack(self) -> u64 {
        match self {
            Some(FilterUpdate::AddSubject(subject)) => pack(0, 1, subject, 0),
            Some(FilterUpdate::RemoveSubjectRange(first, last)) => {
                pack(0, 2, first, u32::from(last))
            }
            None => pack(0, 0, 0, 0),
        }
    }
}

// The entry is the first field, and its priority the second.
impl Answer for Option<Picked> {
    ghost packed = { picked };

    fn pack(self) -> u64 {
        match self {
            Some(picked) => pack(
                0,
                1,
                u16::from(picked.entry),
                u32::from(picked.priority.into_u8()),
            ),
            None => pack(0, 0, 0, 0),
        }
    }
}

// The entry is the first field.
impl Answer for Settled {
    ghost packed = { settled };

    fn pack(self) -> u64 {
        pack(0, u8::from(self.wake), u16::from(self.entry), 0)
    }
}

// A number by itself, an id's or a byte's, is the first field.
impl Answer for u16 {
    ghost packed = { λ n. packed 0 0 n 0 };

    fn pack(self) -> u64 {
        pack(0, 0, self, 0)
    }
}

impl Answer for u8 {
    ghost packed = { λ n. packed 0 0 n 0 };

    fn pack(self) -> u64 {
        pack(0, 0, u16::from(self), 0)
    }
}

impl Answer for PrioritySet {
    ghost packed = { λ set. packed 0 0 set 0 };

    fn pack(self) -> u64 {
        pack(0, 0, u16::from(self.into_bits()), 0)
    }
}

impl Answer for Option<Priority> {
    ghost packed = { priority_answer };

    fn pack(self) -> u64 {
        match self {
            Some(p) => pack(0, 1, u16::from(p.into_u8()), 0),
            None => pack(0, 0, 0, 0),
        }
    }
}

// Whether a frame ends its transfer, if it has a last byte.
impl Answer for Option<bool> {
    ghost packed = { eot_answer };

    fn pack(self) -> u64 {
        match self {
            Some(b) => pack(0, 1, u16::from(b), 0),
            None => pack(0, 0, 0, 0),
        }
    }
}

impl<T: Answer> Answer for Result<T, Refusal> {
    ghost packed = { answered T.packed };

    fn pack(self) -> u64 {
        match self {
            Ok(answer) => answer.pack(),
            Err(Refusal::NotTaken(key, value)) => pack(14, 0, key, value),
            Err(refusal) => pack(u8::from(refusal), 0, 0, 0),
        }
    }
}

#[tactic(auto, unfolding(crate::specs::Answers::packed))]
pub fn pack(number: u8, what: u8, first: u16, second: u32) -> u64
    ensures { result ≡ packed number what first second }
{
    (number as u64) + 256 * (what as u64) + 65536 * (first as u64) + 4294967296 * (second as u64)
}
