// The calls of key queues. Each contract is the call's line of `does` in specs/Calls.antt.
ghost use Rattle.std.specs.Prelude.{◌≡◌};
ghost use Rattle.gomxeli.specs.Calls.{does, IqOpen, IqContains, IqGet, IqGetMut, IqInsert, IqRemove, IqFront, IqBack, IqEnqueueFront, IqEnqueueBack, IqDequeue};

use crate::answer::Answer;

#[unsafe(no_mangle)]
pub extern "C" fn gomxeli_iq_open(s: &mut [u8], k_max: u32, entries: u32) -> u64
    ensures { (result ≡ (does (IqOpen k_max entries) s.old).answer) × (s.new ≡ (does (IqOpen k_max entries) s.old).bytes) }
{
    index_queue::open(s, k_max, entries).pack()
}

#[unsafe(no_mangle)]
pub extern "C" fn gomxeli_iq_contains(s: &[u8], key: u16) -> u64
    ensures { result ≡ (does (IqContains key) s.now).answer }
{
    index_queue::contains(s, key).pack()
}

#[unsafe(no_mangle)]
pub extern "C" fn gomxeli_iq_get(s: &[u8], key: u16) -> u64
    ensures { result ≡ (does (IqGet key) s.now).answer }
{
    index_queue::get(s, key).pack()
}

#[unsafe(no_mangle)]
pub extern "C" fn gomxeli_iq_get_mut(s: &mut [u8], key: u16, value: u32) -> u64
    ensures { (result ≡ (does (IqGetMut key value) s.old).answer) × (s.new ≡ (does (IqGetMut key value) s.old).bytes) }
{
    index_queue::get_mut(s, key, value).pack()
}

#[unsafe(no_mangle)]
pub extern "C" fn gomxeli_iq_insert(s: &mut [u8], key: u16, value: u32) -> u64
    ensures { (result ≡ (does (IqInsert key value) s.old).answer) × (s.new ≡ (does (IqInsert key value) s.old).bytes) }
{
    index_queue::insert(s, key, value).pack()
}

#[unsafe(no_mangle)]
pub extern "C" fn gomxeli_iq_remove(s: &mut [u8], key: u16) -> u64
    ensures { (result ≡ (does (IqRemove key) s.old).answer) × (s.new ≡ (does (IqRemove key) s.old).bytes) }
{
    index_queue::remove(s, key).pack()
}

#[unsafe(no_mangle)]
pub extern "C" fn gomxeli_iq_front(s: &[u8]) -> u64
    ensures { result ≡ (does IqFront s.now).answer }
{
    index_queue::front(s).pack()
}

#[unsafe(no_mangle)]
pub extern "C" fn gomxeli_iq_back(s: &[u8]) -> u64
    ensures { result ≡ (does IqBack s.now).answer }
{
    index_queue::back(s).pack()
}

#[unsafe(no_mangle)]
pub extern "C" fn gomxeli_iq_enqueue_front(s: &mut [u8], key: u16) -> u64
    ensures { (result ≡ (does (IqEnqueueFront key) s.old).answer) × (s.new ≡ (does (IqEnqueueFront key) s.old).bytes) }
{
    index_queue::enqueue_front(s, key).pack()
}

#[unsafe(no_mangle)]
pub extern "C" fn gomxeli_iq_enqueue_back(s: &mut [u8], key: u16) -> u64
    ensures { (result ≡ (does (IqEnqueueBack key) s.old).answer) × (s.new ≡ (does (IqEnqueueBack key) s.old).bytes) }
{
    index_queue::enqueue_back(s, key).pack()
}

#[unsafe(no_mangle)]
pub extern "C" fn gomxeli_iq_dequeue(s: &mut [u8], key: u16) -> u64
    ensures { (result ≡ (does (IqDequeue key) s.old).answer) × (s.new ≡ (does (IqDequeue key) s.old).bytes) }
{
    index_queue::dequeue(s, key).pack()
}
