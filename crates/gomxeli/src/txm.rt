// The calls of the registry of message transmission. Each contract is the call's line of `does` in specs/Calls.antt.
ghost use Rattle.std.specs.Prelude.{◌≡◌};
ghost use Rattle.gomxeli.specs.Calls.{does, TxmOpen, TxmRegister, TxmUnregister, TxmUpdate, TxmPick, TxmSettle};

use crate::answer::Answer;
use tx_queue::Frame;

#[unsafe(no_mangle)]
pub extern "C" fn gomxeli_txm_open(s: &mut [u8]) -> u64
    ensures { (result ≡ (does TxmOpen s.old).answer) × (s.new ≡ (does TxmOpen s.old).bytes) }
{
    tx_msg::open(s).pack()
}

#[unsafe(no_mangle)]
pub extern "C" fn gomxeli_txm_register(s: &mut [u8], entry: u32, subject: u32, readiness: u8) -> u64
    ensures { (result ≡ (does (TxmRegister «entry» subject readiness) s.old).answer) × (s.new ≡ (does (TxmRegister «entry» subject readiness) s.old).bytes) }
{
    tx_msg::register(s, entry, subject, readiness).pack()
}

#[unsafe(no_mangle)]
pub extern "C" fn gomxeli_txm_unregister(s: &mut [u8], entry: u32) -> u64
    ensures { (result ≡ (does (TxmUnregister «entry») s.old).answer) × (s.new ≡ (does (TxmUnregister «entry») s.old).bytes) }
{
    tx_msg::unregister(s, entry).pack()
}

#[unsafe(no_mangle)]
pub extern "C" fn gomxeli_txm_update(s: &mut [u8], entry: u32, readiness: u8) -> u64
    ensures { (result ≡ (does (TxmUpdate «entry» readiness) s.old).answer) × (s.new ≡ (does (TxmUpdate «entry» readiness) s.old).bytes) }
{
    tx_msg::update(s, entry, readiness).pack()
}

#[unsafe(no_mangle)]
pub extern "C" fn gomxeli_txm_pick(s: &mut [u8], mask: u8, mtu: u32) -> u64
    ensures { (result ≡ (does (TxmPick mask mtu) s.old).answer) × (s.new ≡ (does (TxmPick mask mtu) s.old).bytes) }
{
    tx_msg::pick(s, mask, mtu).pack()
}

#[unsafe(no_mangle)]
pub extern "C" fn gomxeli_txm_settle(
    s: &mut [u8],
    frame: u8,
    readiness: u8,
    priority: u32,
    length: u32,
    last: u8,
) -> u64
    ensures { (result ≡ (does (TxmSettle frame readiness priority length last) s.old).answer) × (s.new ≡ (does (TxmSettle frame readiness priority length last) s.old).bytes) }
{
    let frame = (frame != 0).then_some(Frame {
        priority,
        length,
        last,
    });
    tx_msg::settle(s, frame, readiness).pack()
}
