// The core types of Cyphal, after emcyphal-core/src/lib.rs. A contract sees an id as its number, and a set of priorities as its byte.
#![tactic(auto, using(crate::proofs::Laws::sets))]

ghost use Rattle.std.specs.Prelude.{◌≡◌, not, ◌&&◌, ◌||◌, ◌+◌, ◌%◌, ◌<◌, eqb, leb, ltb, ℕ, length};
ghost use Rattle.std.specs.Iterator.{at_most};
ghost use Rattle.std.specs.Result.{result_ok};
ghost use Rattle.emcyphal_core.specs.Priorities.{number, priority_of, maybe_priority, before};
ghost use Rattle.emcyphal_core.specs.Sets.{has, set_of, without, is_empty, first_of, last_of, next_of, members};
ghost use Rattle.emcyphal_core.specs.Ids.{nodes, subjects, services, transfers, maybe_id};
ghost use Rattle.emcyphal_core.specs.Theorem.{BytesAreSets};

use std::marker::Model;
use std::ops::{BitAnd, BitAndAssign, BitOr, BitOrAssign, Not};

/// The number stands for no value of the type.
#[derive(Debug, Drop)]
pub struct InvalidValue;

/// Transfer priority: 0 is the most urgent, 7 the least.
#[derive(Debug, Copy, Clone, PartialEq, Eq, PartialOrd, Ord)]
#[repr(u8)]
pub enum Priority {
    Exceptional = 0,
    Immediate = 1,
    Fast = 2,
    High = 3,
    Nominal = 4,
    Low = 5,
    Slow = 6,
    Optional = 7,
}

impl Priority {
    pub const MIN: Priority = Priority::Exceptional;

    pub const MAX: Priority = Priority::Optional;

    pub fn try_from_u8(code: u8) -> Option<Priority>
        ensures { result ≡ maybe_priority code }
    {
        if code <= Self::MAX.into_u8() {
            Some(Priority::from_u8_truncating(code))
        } else {
            None
        }
    }

    pub fn from_u8_truncating(code: u8) -> Priority
        ensures { result ≡ priority_of (code % 8) }
    {
        match code & 0x7 {
            0 => Priority::Exceptional,
            1 => Priority::Immediate,
            2 => Priority::Fast,
            3 => Priority::High,
            4 => Priority::Nominal,
            5 => Priority::Low,
            6 => Priority::Slow,
            7 => Priority::Optional,
            _ => unreachable!(),
        }
    }

    pub fn into_u8(self) -> u8
        ensures { result ≡ number self }
    {
        self as u8
    }

    pub fn next(self) -> Option<Priority>
        ensures { result ≡ maybe_priority (number self + 1) }
    {
        Self::try_from_u8(self.into_u8() + 1)
    }

    pub fn prev(self) -> Option<Priority>
        ensures { result ≡ before (number self) }
    {
        self.into_u8().checked_sub(1).map(Self::from_u8_truncating)
    }
}

impl From<Priority> for u8 {
    ghost from_gives = { λ p n. n ≡ number p };

    fn from(value: Priority) -> Self {
        value.into_u8()
    }
}

impl From<Priority> for usize {
    ghost from_gives = { λ p n. n ≡ number p };

    fn from(value: Priority) -> Self {
        u8::from(value).into()
    }
}

impl TryFrom<u8> for Priority {
    type Error = InvalidValue;

    ghost try_from_gives = { λ code r. result_ok r ≡ maybe_priority code };

    fn try_from(value: u8) -> Result<Self, Self::Error> {
        Self::try_from_u8(value).ok_or(InvalidValue)
    }
}

/// A set of priorities: bit p is set where the priority p is in it.
#[derive(Debug, Clone, Copy, PartialEq, Eq)]
pub struct PrioritySet(u8);

impl Model for PrioritySet {
    ghost Value = { ℕ };

    ghost view = { λ s. s.0 };

    ghost inverse = { λ b. record { 0 = b } };
}

impl PrioritySet {
    pub const NONE: PrioritySet = PrioritySet(0);

    pub const ALL: PrioritySet = PrioritySet(u8::MAX);

    pub fn from_bits(bits: u8) -> Self
        ensures { result ≡ bits }
    {
        PrioritySet(bits)
    }

    pub fn into_bits(self) -> u8
        ensures { result ≡ self }
    {
        self.0
    }

    pub fn complement(self) -> Self
        ensures { result ≡ set_of (λ p. not (has self p)) }
    {
        PrioritySet(!self.0)
    }

    pub fn new_eq(priority: Priority) -> Self
        ensures { result ≡ set_of (λ p. eqb p (number priority)) }
    {
        PrioritySet(1u8 << priority.into_u8())
    }

    pub fn new_ge(priority: Priority) -> Self
        ensures { result ≡ set_of (λ p. leb (number priority) p) }
    {
        PrioritySet(Self::ALL.0 << priority.into_u8())
    }

    pub fn new_le(priority: Priority) -> Self
        ensures { result ≡ set_of (λ p. leb p (number priority)) }
    {
        PrioritySet(Self::ALL.0 >> (Priority::MAX.into_u8() - priority.into_u8()))
    }

    pub fn new_gt(priority: Priority) -> Self
        ensures { result ≡ set_of (λ p. ltb (number priority) p) }
    {
        Self::new_le(priority).complement()
    }

    pub fn new_lt(priority: Priority) -> Self
        ensures { result ≡ set_of (λ p. ltb p (number priority)) }
    {
        Self::new_ge(priority).complement()
    }

    pub fn contains(&self, priority: Priority) -> bool
        ensures { result ≡ has self.now (number priority) }
    {
        (self.0 >> priority.into_u8()) & 0x1 != 0
    }

    pub fn insert(&mut self, priority: Priority)
        ensures { self.new ≡ set_of (λ p. has self.old p || eqb p (number priority)) }
    {
        self.0 |= Self::new_eq(priority).0
    }

    pub fn remove(&mut self, priority: Priority)
        ensures { self.new ≡ without self.old (number priority) }
    {
        self.0 &= Self::new_eq(priority).complement().0
    }

    /// The most urgent member.
    pub fn first(&self) -> Option<Priority>
        ensures { result ≡ first_of self.now }
    {
        Priority::try_from_u8(self.0.trailing_zeros() as u8)
    }

    /// The least urgent member.
    pub fn last(&self) -> Option<Priority>
        ensures { result ≡ last_of self.now }
    {
        let n = u8::BITS - self.0.leading_zeros();
        Priority::try_from_u8((n as u8).wrapping_sub(1))
    }

    pub fn is_empty(&self) -> bool
        ensures { result ≡ is_empty self.now }
    {
        self.0 == Self::NONE.0
    }
}

impl Default for PrioritySet {
    ghost is_default = { λ s. s ≡ 0 };

    fn default() -> Self {
        PrioritySet::NONE
    }
}

impl Not for PrioritySet {
    type Output = Self;

    ghost not_gives = { λ a r. r ≡ set_of (λ p. not (has a p)) };

    fn not(self) -> Self::Output {
        self.complement()
    }
}

impl BitAnd for PrioritySet {
    type Output = Self;

    ghost bitand_gives = { λ a b r. r ≡ set_of (λ p. has a p && has b p) };

    fn bitand(self, rhs: PrioritySet) -> Self::Output {
        PrioritySet(self.0 & rhs.0)
    }
}

impl BitAndAssign for PrioritySet {
    ghost bitand_assign_gives = { λ a b r. r ≡ set_of (λ p. has a p && has b p) };

    fn bitand_assign(&mut self, rhs: PrioritySet) {
        self.0 &= rhs.0
    }
}

impl BitOr for PrioritySet {
    type Output = Self;

    ghost bitor_gives = { λ a b r. r ≡ set_of (λ p. has a p || has b p) };

    fn bitor(self, rhs: PrioritySet) -> Self::Output {
        PrioritySet(self.0 | rhs.0)
    }
}

impl BitOrAssign for PrioritySet {
    ghost bitor_assign_gives = { λ a b r. r ≡ set_of (λ p. has a p || has b p) };

    fn bitor_assign(&mut self, rhs: PrioritySet) {
        self.0 |= rhs.0
    }
}

impl IntoIterator for PrioritySet {
    type Item = Priority;

    type IntoIter = PrioritySetIterator;

    ghost into_iter_gives = { λ s i. i ≡ s };

    fn into_iter(self) -> Self::IntoIter {
        PrioritySetIterator { residual: self }
    }
}

/// Hands out the members of a set, the most urgent first.
#[derive(Clone, Copy)]
pub struct PrioritySetIterator {
    residual: PrioritySet,
}

impl Model for PrioritySetIterator {
    ghost Value = { ℕ };

    ghost view = { λ i. i.residual };

    ghost inverse = { λ n. record { residual = n } };
}

impl PrioritySetIterator {
    /// The members still to come.
    pub fn residual(&self) -> PrioritySet
        ensures { result ≡ self.now }
    {
        self.residual
    }
}

impl Iterator for PrioritySetIterator {
    type Item = Priority;

    ghost next_gives = { λ s r t. (r, t) ≡ next_of s };

    ghost remaining = { λ s. at_most (length (members s)) };

    fn next(&mut self) -> Option<Self::Item> {
        let first = self.residual.first();
        if let Some(priority) = first {
            self.residual.remove(priority);
        }
        first
    }
}

// The ids are four types, as in the source. One type over its number of values would ask for a power of two, which the masks need, and
// for a second type in 16 bits, and no contract here would say which number is whose.

#[derive(Debug, Copy, Clone, PartialEq, Eq, PartialOrd, Ord)]
pub struct NodeId(u8);

impl Model for NodeId {
    ghost Value = { ℕ };

    ghost view = { λ id. id.0 };

    ghost invariant = { λ id. id.0 < nodes };

    ghost inverse = { λ n. record { 0 = n } };
}

impl NodeId {
    const MAX_VALUE: u8 = 0x7f;

    pub const MAX: NodeId = NodeId(Self::MAX_VALUE);

    pub fn new(value: u8) -> Option<Self>
        ensures { result ≡ maybe_id nodes value }
    {
        if value <= Self::MAX_VALUE {
            Some(NodeId(value))
        } else {
            None
        }
    }

    pub fn from_u8_truncating(value: u8) -> Self
        ensures { result ≡ value % nodes }
    {
        NodeId(value & Self::MAX_VALUE)
    }

    pub fn into_u8(self) -> u8
        ensures value { result ≡ self }
        ensures in_range { result < nodes }
    {
        self.0
    }
}

impl From<NodeId> for u8 {
    ghost from_gives = { λ id n. (n ≡ id) × (n < nodes) };

    fn from(value: NodeId) -> Self {
        value.into_u8()
    }
}

impl From<NodeId> for usize {
    ghost from_gives = { λ id n. (n ≡ id) × (n < nodes) };

    fn from(value: NodeId) -> Self {
        u8::from(value).into()
    }
}

impl TryFrom<u8> for NodeId {
    type Error = InvalidValue;

    ghost try_from_gives = { λ n r. result_ok r ≡ maybe_id nodes n };

    fn try_from(value: u8) -> Result<Self, Self::Error> {
        Self::new(value).ok_or(InvalidValue)
    }
}

#[derive(Debug, Copy, Clone, PartialEq, Eq, PartialOrd, Ord)]
pub struct SubjectId(u16);

impl Model for SubjectId {
    ghost Value = { ℕ };

    ghost view = { λ id. id.0 };

    ghost invariant = { λ id. id.0 < subjects };

    ghost inverse = { λ n. record { 0 = n } };
}

impl SubjectId {
    const MAX_VALUE: u16 = 0x1fff;

    pub const MAX: SubjectId = SubjectId(Self::MAX_VALUE);

    pub fn new(value: u16) -> Option<Self>
        ensures { result ≡ maybe_id subjects value }
    {
        if value <= Self::MAX_VALUE {
            Some(SubjectId(value))
        } else {
            None
        }
    }

    pub fn from_u16_truncating(value: u16) -> Self
        ensures { result ≡ value % subjects }
    {
        SubjectId(value & Self::MAX_VALUE)
    }

    pub fn into_u16(self) -> u16
        ensures value { result ≡ self }
        ensures in_range { result < subjects }
    {
        self.0
    }
}

impl From<SubjectId> for u16 {
    ghost from_gives = { λ id n. (n ≡ id) × (n < subjects) };

    fn from(value: SubjectId) -> Self {
        value.into_u16()
    }
}

impl TryFrom<u16> for SubjectId {
    type Error = InvalidValue;

    ghost try_from_gives = { λ n r. result_ok r ≡ maybe_id subjects n };

    fn try_from(value: u16) -> Result<Self, Self::Error> {
        Self::new(value).ok_or(InvalidValue)
    }
}

#[derive(Debug, Copy, Clone, PartialEq, Eq, PartialOrd, Ord)]
pub struct ServiceId(u16);

impl Model for ServiceId {
    ghost Value = { ℕ };

    ghost view = { λ id. id.0 };

    ghost invariant = { λ id. id.0 < services };

    ghost inverse = { λ n. record { 0 = n } };
}

impl ServiceId {
    const MAX_VALUE: u16 = 0x1ff;

    pub const MAX: ServiceId = ServiceId(Self::MAX_VALUE);

    pub fn new(value: u16) -> Option<Self>
        ensures { result ≡ maybe_id services value }
    {
        if value <= Self::MAX_VALUE {
            Some(ServiceId(value))
        } else {
            None
        }
    }

    pub fn from_u16_truncating(value: u16) -> Self
        ensures { result ≡ value % services }
    {
        ServiceId(value & Self::MAX_VALUE)
    }

    pub fn into_u16(self) -> u16
        ensures value { result ≡ self }
        ensures in_range { result < services }
    {
        self.0
    }
}

impl From<ServiceId> for u16 {
    ghost from_gives = { λ id n. (n ≡ id) × (n < services) };

    fn from(value: ServiceId) -> Self {
        value.into_u16()
    }
}

impl TryFrom<u16> for ServiceId {
    type Error = InvalidValue;

    ghost try_from_gives = { λ n r. result_ok r ≡ maybe_id services n };

    fn try_from(value: u16) -> Result<Self, Self::Error> {
        Self::new(value).ok_or(InvalidValue)
    }
}

#[derive(Debug, Copy, Clone, PartialEq, Eq)]
pub struct TransferId(u8);

impl Model for TransferId {
    ghost Value = { ℕ };

    ghost view = { λ id. id.0 };

    ghost invariant = { λ id. id.0 < transfers };

    ghost inverse = { λ n. record { 0 = n } };
}

impl TransferId {
    const MAX_VALUE: u8 = 0x1f;

    pub const MAX: TransferId = TransferId(Self::MAX_VALUE);

    /// The id of a session's first transfer.
    pub const SESSION_START: TransferId = TransferId(0);

    pub fn new(value: u8) -> Option<Self>
        ensures { result ≡ maybe_id transfers value }
    {
        if value <= Self::MAX_VALUE {
            Some(TransferId(value))
        } else {
            None
        }
    }

    pub fn from_u8_truncating(value: u8) -> Self
        ensures { result ≡ value % transfers }
    {
        TransferId(value & Self::MAX_VALUE)
    }

    pub fn into_u8(self) -> u8
        ensures value { result ≡ self }
        ensures in_range { result < transfers }
    {
        self.0
    }

    pub fn next(self) -> Self
        ensures { result ≡ (self + 1) % transfers }
    {
        TransferId((self.0 + 1) & Self::MAX_VALUE)
    }
}

impl Default for TransferId {
    ghost is_default = { λ id. id ≡ 0 };

    fn default() -> Self {
        Self::SESSION_START
    }
}

impl From<TransferId> for u8 {
    ghost from_gives = { λ id n. (n ≡ id) × (n < transfers) };

    fn from(value: TransferId) -> Self {
        value.into_u8()
    }
}

impl TryFrom<u8> for TransferId {
    type Error = InvalidValue;

    ghost try_from_gives = { λ n r. result_ok r ≡ maybe_id transfers n };

    fn try_from(value: u8) -> Result<Self, Self::Error> {
        Self::new(value).ok_or(InvalidValue)
    }
}

/// Does nothing: its contract is the theorem that bytes are sets.
pub fn bytes_are_sets()
    ensures { BytesAreSets }
{}
