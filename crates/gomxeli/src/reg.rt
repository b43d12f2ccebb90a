// The calls of the regular registry. Each contract is the call's line of `does` in specs/Calls.antt.
ghost use Rattle.std.specs.Prelude.{◌≡◌};
ghost use Rattle.gomxeli.specs.Calls.{does, RegOpen, RegRegister, RegUnregister, RegPollPop, RegHubPushStart, RegHubPushNext};

use crate::answer::Answer;

#[unsafe(no_mangle)]
pub extern "C" fn gomxeli_reg_open(s: &mut [u8], slots: u32) -> u64
    ensures { (result ≡ (does (RegOpen «slots») s.old).answer) × (s.new ≡ (does (RegOpen «slots») s.old).bytes) }
{
    rx_msg::regular_inner::open(s, slots).pack()
}

#[unsafe(no_mangle)]
pub extern "C" fn gomxeli_reg_register(s: &mut [u8], entry: u32, subject: u32) -> u64
    ensures { (result ≡ (does (RegRegister «entry» subject) s.old).answer) × (s.new ≡ (does (RegRegister «entry» subject) s.old).bytes) }
{
    rx_msg::regular_inner::register(s, entry, subject).pack()
}

#[unsafe(no_mangle)]
pub extern "C" fn gomxeli_reg_unregister(s: &mut [u8], entry: u32) -> u64
    ensures { (result ≡ (does (RegUnregister «entry») s.old).answer) × (s.new ≡ (does (RegUnregister «entry») s.old).bytes) }
{
    rx_msg::regular_inner::unregister(s, entry).pack()
}

#[unsafe(no_mangle)]
pub extern "C" fn gomxeli_reg_poll_pop(s: &mut [u8]) -> u64
    ensures { (result ≡ (does RegPollPop s.old).answer) × (s.new ≡ (does RegPollPop s.old).bytes) }
{
    rx_msg::regular_inner::poll_pop(s).pack()
}

#[unsafe(no_mangle)]
pub extern "C" fn gomxeli_reg_hub_push_start(s: &mut [u8], subject: u32) -> u64
    ensures { (result ≡ (does (RegHubPushStart subject) s.old).answer) × (s.new ≡ (does (RegHubPushStart subject) s.old).bytes) }
{
    rx_msg::regular_inner::hub_push_start(s, subject).pack()
}

#[unsafe(no_mangle)]
pub extern "C" fn gomxeli_reg_hub_push_next(s: &mut [u8]) -> u64
    ensures { (result ≡ (does RegHubPushNext s.old).answer) × (s.new ≡ (does RegHubPushNext s.old).bytes) }
{
    rx_msg::regular_inner::hub_push_next(s).pack()
}
