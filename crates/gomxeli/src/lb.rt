// The calls of the loop-back registry. Each contract is the call's line of `does` in specs/Calls.antt.
ghost use Rattle.std.specs.Prelude.{◌≡◌};
ghost use Rattle.gomxeli.specs.Calls.{does, LbOpen, LbRegister, LbUnregister, LbHubPushStart, LbHubPushNext};

use crate::answer::Answer;

#[unsafe(no_mangle)]
pub extern "C" fn gomxeli_lb_open(s: &mut [u8]) -> u64
    ensures { (result ≡ (does LbOpen s.old).answer) × (s.new ≡ (does LbOpen s.old).bytes) }
{
    rx_msg::loop_back_inner::open(s).pack()
}

#[unsafe(no_mangle)]
pub extern "C" fn gomxeli_lb_register(s: &mut [u8], entry: u32, subject: u32) -> u64
    ensures { (result ≡ (does (LbRegister «entry» subject) s.old).answer) × (s.new ≡ (does (LbRegister «entry» subject) s.old).bytes) }
{
    rx_msg::loop_back_inner::register(s, entry, subject).pack()
}

#[unsafe(no_mangle)]
pub extern "C" fn gomxeli_lb_unregister(s: &mut [u8], entry: u32) -> u64
    ensures { (result ≡ (does (LbUnregister «entry») s.old).answer) × (s.new ≡ (does (LbUnregister «entry») s.old).bytes) }
{
    rx_msg::loop_back_inner::unregister(s, entry).pack()
}

#[unsafe(no_mangle)]
pub extern "C" fn gomxeli_lb_hub_push_start(s: &mut [u8], subject: u32) -> u64
    ensures { (result ≡ (does (LbHubPushStart subject) s.old).answer) × (s.new ≡ (does (LbHubPushStart subject) s.old).bytes) }
{
    rx_msg::loop_back_inner::hub_push_start(s, subject).pack()
}

#[unsafe(no_mangle)]
pub extern "C" fn gomxeli_lb_hub_push_next(s: &mut [u8]) -> u64
    ensures { (result ≡ (does LbHubPushNext s.old).answer) × (s.new ≡ (does LbHubPushNext s.old).bytes) }
{
    rx_msg::loop_back_inner::hub_push_next(s).pack()
}
