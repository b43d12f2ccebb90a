// Identifiers, priorities, sets of priorities and the tail byte. A priority above 7 is refused with 3.
ghost use Rattle.std.specs.Prelude.{◌≡◌, Ok, Err, cond, not, ◌&&◌, ◌||◌, ◌+◌, ◌%◌, eqb, leb, ltb};
ghost use Rattle.state.specs.Seq.{to_nat};
ghost use Rattle.emcyphal_core.specs.Ids.{nodes, subjects, services, transfers, maybe_id};
ghost use Rattle.state.specs.declared.Refusal.TheVariants.{Range};
ghost use Rattle.emcyphal_core.specs.Priorities.{priority_of, maybe_priority, before};
ghost use Rattle.emcyphal_core.specs.Sets.{has, set_of, without, is_empty, first_of, last_of, next_of};
ghost use Rattle.format.specs.Tail.{tail_byte, eot_frame};
ghost use Rattle.gomxeli.specs.Answers.{packed, priority_answer, option_first, eot_answer, next_answer, with_priority};

use crate::answer::{Answer, pack};
use emcyphal_core::{NodeId, Priority, PrioritySet, ServiceId, SubjectId, TransferId};
use format::TailByte;
use state::Refusal;

// The priority of a number: above 7 there is none.
fn checked(number: u8) -> Result<Priority, Refusal>
    ensures { result ≡ cond (leb number 7) (Ok (priority_of number)) (Err Range) }
{
    Priority::try_from_u8(number).ok_or(Refusal::Range)
}

#[unsafe(no_mangle)]
pub extern "C" fn gomxeli_subject_id_new(value: u16) -> u64
    ensures { result ≡ option_first (maybe_id subjects value) }
{
    SubjectId::new(value).map(u16::from).pack()
}

#[unsafe(no_mangle)]
pub extern "C" fn gomxeli_subject_id_from_u16_truncating(value: u16) -> u64
    ensures { result ≡ packed 0 0 (value % subjects) 0 }
{
    SubjectId::from_u16_truncating(value).into_u16().pack()
}

#[unsafe(no_mangle)]
pub extern "C" fn gomxeli_service_id_new(value: u16) -> u64
    ensures { result ≡ option_first (maybe_id services value) }
{
    ServiceId::new(value).map(u16::from).pack()
}

#[unsafe(no_mangle)]
pub extern "C" fn gomxeli_service_id_from_u16_truncating(value: u16) -> u64
    ensures { result ≡ packed 0 0 (value % services) 0 }
{
    ServiceId::from_u16_truncating(value).into_u16().pack()
}

#[unsafe(no_mangle)]
pub extern "C" fn gomxeli_node_id_new(value: u8) -> u64
    ensures { result ≡ option_first (maybe_id nodes value) }
{
    NodeId::new(value).map(u8::from).pack()
}

#[unsafe(no_mangle)]
pub extern "C" fn gomxeli_node_id_from_u8_truncating(value: u8) -> u64
    ensures { result ≡ packed 0 0 (value % nodes) 0 }
{
    NodeId::from_u8_truncating(value).into_u8().pack()
}

#[unsafe(no_mangle)]
pub extern "C" fn gomxeli_transfer_id_new(value: u8) -> u64
    ensures { result ≡ option_first (maybe_id transfers value) }
{
    TransferId::new(value).map(u8::from).pack()
}

#[unsafe(no_mangle)]
pub extern "C" fn gomxeli_transfer_id_from_u8_truncating(value: u8) -> u64
    ensures { result ≡ packed 0 0 (value % transfers) 0 }
{
    TransferId::from_u8_truncating(value).into_u8().pack()
}

// Of the argument the low five bits count.
#[unsafe(no_mangle)]
pub extern "C" fn gomxeli_transfer_id_next(id: u8) -> u64
    ensures { result ≡ packed 0 0 ((id % transfers + 1) % transfers) 0 }
{
    TransferId::from_u8_truncating(id).next().into_u8().pack()
}

#[unsafe(no_mangle)]
pub extern "C" fn gomxeli_priority_try_from_u8(value: u8) -> u64
    ensures { result ≡ priority_answer (maybe_priority value) }
{
    Priority::try_from_u8(value).pack()
}

#[unsafe(no_mangle)]
pub extern "C" fn gomxeli_priority_from_u8_truncating(value: u8) -> u64
    ensures { result ≡ packed 0 0 (value % 8) 0 }
{
    Priority::from_u8_truncating(value).into_u8().pack()
}

#[unsafe(no_mangle)]
pub extern "C" fn gomxeli_priority_next(priority: u8) -> u64
    ensures { result ≡ with_priority priority (priority_answer (maybe_priority (priority + 1))) }
{
    checked(priority).map(Priority::next).pack()
}

#[unsafe(no_mangle)]
pub extern "C" fn gomxeli_priority_prev(priority: u8) -> u64
    ensures { result ≡ with_priority priority (priority_answer (before priority)) }
{
    checked(priority).map(Priority::prev).pack()
}

#[unsafe(no_mangle)]
pub extern "C" fn gomxeli_priority_set_new_eq(priority: u8) -> u64
    ensures { result ≡ with_priority priority (packed 0 0 (set_of (λ p. eqb p priority)) 0) }
{
    checked(priority).map(PrioritySet::new_eq).pack()
}

#[unsafe(no_mangle)]
pub extern "C" fn gomxeli_priority_set_new_ge(priority: u8) -> u64
    ensures { result ≡ with_priority priority (packed 0 0 (set_of (λ p. leb priority p)) 0) }
{
    checked(priority).map(PrioritySet::new_ge).pack()
}

#[unsafe(no_mangle)]
pub extern "C" fn gomxeli_priority_set_new_le(priority: u8) -> u64
    ensures { result ≡ with_priority priority (packed 0 0 (set_of (λ p. leb p priority)) 0) }
{
    checked(priority).map(PrioritySet::new_le).pack()
}

#[unsafe(no_mangle)]
pub extern "C" fn gomxeli_priority_set_new_gt(priority: u8) -> u64
    ensures { result ≡ with_priority priority (packed 0 0 (set_of (λ p. ltb priority p)) 0) }
{
    checked(priority).map(PrioritySet::new_gt).pack()
}

#[unsafe(no_mangle)]
pub extern "C" fn gomxeli_priority_set_new_lt(priority: u8) -> u64
    ensures { result ≡ with_priority priority (packed 0 0 (set_of (λ p. ltb p priority)) 0) }
{
    checked(priority).map(PrioritySet::new_lt).pack()
}

#[unsafe(no_mangle)]
pub extern "C" fn gomxeli_priority_set_contains(bits: u8, priority: u8) -> u64
    ensures { result ≡ with_priority priority (packed 0 (to_nat (has bits priority)) 0 0) }
{
    checked(priority)
        .map(|p| PrioritySet::from_bits(bits).contains(p))
        .pack()
}

#[unsafe(no_mangle)]
pub extern "C" fn gomxeli_priority_set_insert(bits: u8, priority: u8) -> u64
    ensures { result ≡ with_priority priority (packed 0 0 (set_of (λ p. has bits p || eqb p priority)) 0) }
{
    let with = |p| {
        let mut set = PrioritySet::from_bits(bits);
        set.insert(p);
        set
    };
    checked(priority).map(with).pack()
}

#[unsafe(no_mangle)]
pub extern "C" fn gomxeli_priority_set_remove(bits: u8, priority: u8) -> u64
    ensures { result ≡ with_priority priority (packed 0 0 (without bits priority) 0) }
{
    let with = |p| {
        let mut set = PrioritySet::from_bits(bits);
        set.remove(p);
        set
    };
    checked(priority).map(with).pack()
}

#[unsafe(no_mangle)]
pub extern "C" fn gomxeli_priority_set_first(bits: u8) -> u64
    ensures { result ≡ priority_answer (first_of bits) }
{
    PrioritySet::from_bits(bits).first().pack()
}

#[unsafe(no_mangle)]
pub extern "C" fn gomxeli_priority_set_last(bits: u8) -> u64
    ensures { result ≡ priority_answer (last_of bits) }
{
    PrioritySet::from_bits(bits).last().pack()
}

#[unsafe(no_mangle)]
pub extern "C" fn gomxeli_priority_set_is_empty(bits: u8) -> u64
    ensures { result ≡ packed 0 (to_nat (is_empty bits)) 0 0 }
{
    PrioritySet::from_bits(bits).is_empty().pack()
}

#[unsafe(no_mangle)]
pub extern "C" fn gomxeli_priority_set_complement(bits: u8) -> u64
    ensures { result ≡ packed 0 0 (set_of (λ p. not (has bits p))) 0 }
{
    PrioritySet::from_bits(bits).complement().pack()
}

#[unsafe(no_mangle)]
pub extern "C" fn gomxeli_priority_set_not(bits: u8) -> u64
    ensures { result ≡ packed 0 0 (set_of (λ p. not (has bits p))) 0 }
{
    (!PrioritySet::from_bits(bits)).pack()
}

#[unsafe(no_mangle)]
pub extern "C" fn gomxeli_priority_set_bitand(a: u8, b: u8) -> u64
    ensures { result ≡ packed 0 0 (set_of (λ p. has a p && has b p)) 0 }
{
    (PrioritySet::from_bits(a) & PrioritySet::from_bits(b)).pack()
}

#[unsafe(no_mangle)]
pub extern "C" fn gomxeli_priority_set_bitor(a: u8, b: u8) -> u64
    ensures { result ≡ packed 0 0 (set_of (λ p. has a p || has b p)) 0 }
{
    (PrioritySet::from_bits(a) | PrioritySet::from_bits(b)).pack()
}

#[unsafe(no_mangle)]
pub extern "C" fn gomxeli_priority_set_iter_next(bits: u8) -> u64
    ensures { result ≡ next_answer (next_of bits) }
{
    let mut members = PrioritySet::from_bits(bits).into_iter();
    match members.next() {
        Some(p) => pack(
            0,
            1,
            u16::from(p.into_u8()),
            u32::from(members.residual().into_bits()),
        ),
        None => pack(0, 0, 0, 0),
    }
}

// A flag is set where it is not 0.
#[unsafe(no_mangle)]
pub extern "C" fn gomxeli_tail_byte_new(sot: u8, eot: u8, toggle: u8, transfer_id: u8) -> u64
    ensures { result ≡ packed 0 0 (tail_byte (ltb 0 sot) (ltb 0 eot) (ltb 0 toggle) (transfer_id % transfers)) 0 }
{
    let transfer_id = TransferId::from_u8_truncating(transfer_id);
    u8::from(TailByte::new(0 < sot, 0 < eot, 0 < toggle, transfer_id)).pack()
}

#[unsafe(no_mangle)]
pub extern "C" fn gomxeli_tail_byte_sot(byte: u8) -> u64
    ensures { result ≡ packed 0 (to_nat (has byte 7)) 0 0 }
{
    TailByte::from(byte).sot().pack()
}

#[unsafe(no_mangle)]
pub extern "C" fn gomxeli_tail_byte_eot(byte: u8) -> u64
    ensures { result ≡ packed 0 (to_nat (has byte 6)) 0 0 }
{
    TailByte::from(byte).eot().pack()
}

#[unsafe(no_mangle)]
pub extern "C" fn gomxeli_tail_byte_toggle(byte: u8) -> u64
    ensures { result ≡ packed 0 (to_nat (has byte 5)) 0 0 }
{
    TailByte::from(byte).toggle().pack()
}

#[unsafe(no_mangle)]
pub extern "C" fn gomxeli_tail_byte_transfer_id(byte: u8) -> u64
    ensures { result ≡ packed 0 0 (byte % transfers) 0 }
{
    TailByte::from(byte).transfer_id().into_u8().pack()
}

#[unsafe(no_mangle)]
pub extern "C" fn gomxeli_is_eot_frame(frame: &[u8]) -> u64
    ensures { result ≡ eot_answer (eot_frame frame.now) }
{
    format::is_eot_frame(frame).pack()
}
