// The calls of the registry of response transmission. Each contract is the call's line of `does` in specs/Calls.antt.
ghost use Rattle.std.specs.Prelude.{◌≡◌};
ghost use Rattle.gomxeli.specs.Calls.{does, TxrOpen, TxrRegister, TxrUnregister, TxrUpdate, TxrPick, TxrSettle};

use crate::answer::Answer;
use tx_queue::Frame;

#[unsafe(no_mangle)]
pub extern "C" fn gomxeli_txr_open(s: &mut [u8]) -> u64
    ensures { (result ≡ (does TxrOpen s.old).answer) × (s.new ≡ (does TxrOpen s.old).bytes) }
{
    tx_resp::open(s).pack()
}

#[unsafe(no_mangle)]
pub extern "C" fn gomxeli_txr_register(s: &mut [u8], entry: u32, readiness: u8) -> u64
    ensures { (result ≡ (does (TxrRegister «entry» readiness) s.old).answer) × (s.new ≡ (does (TxrRegister «entry» readiness) s.old).bytes) }
{
    tx_resp::register(s, entry, readiness).pack()
}

#[unsafe(no_mangle)]
pub extern "C" fn gomxeli_txr_unregister(s: &mut [u8], entry: u32) -> u64
    ensures { (result ≡ (does (TxrUnregister «entry») s.old).answer) × (s.new ≡ (does (TxrUnregister «entry») s.old).bytes) }
{
    tx_resp::unregister(s, entry).pack()
}

#[unsafe(no_mangle)]
pub extern "C" fn gomxeli_txr_update(s: &mut [u8], entry: u32, readiness: u8) -> u64
    ensures { (result ≡ (does (TxrUpdate «entry» readiness) s.old).answer) × (s.new ≡ (does (TxrUpdate «entry» readiness) s.old).bytes) }
{
    tx_resp::update(s, entry, readiness).pack()
}

#[unsafe(no_mangle)]
pub extern "C" fn gomxeli_txr_pick(s: &mut [u8], mask: u8, mtu: u32) -> u64
    ensures { (result ≡ (does (TxrPick mask mtu) s.old).answer) × (s.new ≡ (does (TxrPick mask mtu) s.old).bytes) }
{
    tx_resp::pick(s, mask, mtu).pack()
}

#[unsafe(no_mangle)]
pub extern "C" fn gomxeli_txr_settle(
    s: &mut [u8],
    frame: u8,
    readiness: u8,
    priority: u32,
    length: u32,
    last: u8,
) -> u64
    ensures { (result ≡ (does (TxrSettle frame readiness priority length last) s.old).answer) × (s.new ≡ (does (TxrSettle frame readiness priority length last) s.old).bytes) }
{
    let frame = (frame != 0).then_some(Frame {
        priority,
        length,
        last,
    });
    tx_resp::settle(s, frame, readiness).pack()
}
