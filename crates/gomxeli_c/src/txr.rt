// The calls of the registry of response transmission. Each contract is the call's line of `does` in specs/Calls.antt.
ghost use Rattle.std.specs.Prelude.{◌≡◌};
ghost use Rattle.gomxeli.specs.Calls.{does, TxrOpen, TxrRegister, TxrUnregister, TxrUpdate, TxrPick, TxrSettle};

#[unsafe(no_mangle)]
pub extern "C" fn gomxeli_txr_open(s: &mut [u8]) -> u64
    ensures { (result ≡ (does TxrOpen s.old).answer) × (s.new ≡ (does TxrOpen s.old).bytes) }
{
    gomxeli::txr::gomxeli_txr_open(s)
}

#[unsafe(no_mangle)]
pub extern "C" fn gomxeli_txr_register(s: &mut [u8], entry: u32, readiness: u8) -> u64
    ensures { (result ≡ (does (TxrRegister «entry» readiness) s.old).answer) × (s.new ≡ (does (TxrRegister «entry» readiness) s.old).bytes) }
{
    gomxeli::txr::gomxeli_txr_register(s, entry, readiness)
}

#[unsafe(no_mangle)]
pub extern "C" fn gomxeli_txr_unregister(s: &mut [u8], entry: u32) -> u64
    ensures { (result ≡ (does (TxrUnregister «entry») s.old).answer) × (s.new ≡ (does (TxrUnregister «entry») s.old).bytes) }
{
    gomxeli::txr::gomxeli_txr_unregister(s, entry)
}

#[unsafe(no_mangle)]
pub extern "C" fn gomxeli_txr_update(s: &mut [u8], entry: u32, readiness: u8) -> u64
    ensures { (result ≡ (does (TxrUpdate «entry» readiness) s.old).answer) × (s.new ≡ (does (TxrUpdate «entry» readiness) s.old).bytes) }
{
    gomxeli::txr::gomxeli_txr_update(s, entry, readiness)
}

#[unsafe(no_mangle)]
pub extern "C" fn gomxeli_txr_pick(s: &mut [u8], mask: u8, mtu: u32) -> u64
    ensures { (result ≡ (does (TxrPick mask mtu) s.old).answer) × (s.new ≡ (does (TxrPick mask mtu) s.old).bytes) }
{
    gomxeli::txr::gomxeli_txr_pick(s, mask, mtu)
}

#[unsafe(no_mangle)]
pub extern "C" fn gomxeli_txr_settle(
    s: &mut [u8],
    frame: u8,
    readiness: u8,
    priority: u32,
    length: u32,
    last: u8,
) -> u64
    ensures { (result ≡ (does (TxrSettle frame readiness priority length last) s.old).answer) × (s.new ≡ (does (TxrSettle frame readiness priority length last) s.old).bytes) }
{
    gomxeli::txr::gomxeli_txr_settle(s, frame, readiness, priority, length, last)
}
