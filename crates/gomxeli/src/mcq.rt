// The calls of list queues. Each contract is the call's line of `does` in specs/Calls.antt.
ghost use Rattle.std.specs.Prelude.{◌≡◌};
ghost use Rattle.gomxeli.specs.Calls.{does, McqOpen, McqFront, McqBack, McqIsEmpty, McqIsFront, McqIsBack, McqRemove, McqMoveFront, McqMoveBack};

use crate::answer::Answer;

#[unsafe(no_mangle)]
pub extern "C" fn gomxeli_mcq_open(s: &mut [u8], classes: u32, entries: u32) -> u64
    ensures { (result ≡ (does (McqOpen classes entries) s.old).answer) × (s.new ≡ (does (McqOpen classes entries) s.old).bytes) }
{
    multi_class_queue::open(s, classes, entries).pack()
}

#[unsafe(no_mangle)]
pub extern "C" fn gomxeli_mcq_front(s: &[u8], class: u32) -> u64
    ensures { result ≡ (does (McqFront class) s.now).answer }
{
    multi_class_queue::front(s, class).pack()
}

#[unsafe(no_mangle)]
pub extern "C" fn gomxeli_mcq_back(s: &[u8], class: u32) -> u64
    ensures { result ≡ (does (McqBack class) s.now).answer }
{
    multi_class_queue::back(s, class).pack()
}

#[unsafe(no_mangle)]
pub extern "C" fn gomxeli_mcq_is_empty(s: &[u8], class: u32) -> u64
    ensures { result ≡ (does (McqIsEmpty class) s.now).answer }
{
    multi_class_queue::is_empty(s, class).pack()
}

#[unsafe(no_mangle)]
pub extern "C" fn gomxeli_mcq_is_front(s: &[u8], entry: u32) -> u64
    ensures { result ≡ (does (McqIsFront entry) s.now).answer }
{
    multi_class_queue::is_front(s, entry).pack()
}

#[unsafe(no_mangle)]
pub extern "C" fn gomxeli_mcq_is_back(s: &[u8], entry: u32) -> u64
    ensures { result ≡ (does (McqIsBack entry) s.now).answer }
{
    multi_class_queue::is_back(s, entry).pack()
}

#[unsafe(no_mangle)]
pub extern "C" fn gomxeli_mcq_remove(s: &mut [u8], entry: u32) -> u64
    ensures { (result ≡ (does (McqRemove entry) s.old).answer) × (s.new ≡ (does (McqRemove entry) s.old).bytes) }
{
    multi_class_queue::remove(s, entry).pack()
}

#[unsafe(no_mangle)]
pub extern "C" fn gomxeli_mcq_move_front(s: &mut [u8], class: u32, entry: u32) -> u64
    ensures { (result ≡ (does (McqMoveFront class entry) s.old).answer) × (s.new ≡ (does (McqMoveFront class entry) s.old).bytes) }
{
    multi_class_queue::move_front(s, class, entry).pack()
}

#[unsafe(no_mangle)]
pub extern "C" fn gomxeli_mcq_move_back(s: &mut [u8], class: u32, entry: u32) -> u64
    ensures { (result ≡ (does (McqMoveBack class entry) s.old).answer) × (s.new ≡ (does (McqMoveBack class entry) s.old).bytes) }
{
    multi_class_queue::move_back(s, class, entry).pack()
}
