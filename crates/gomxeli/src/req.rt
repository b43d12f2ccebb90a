// The calls of the request registry. Each contract is the call's line of `does` in specs/Calls.antt.
ghost use Rattle.std.specs.Prelude.{◌≡◌};
ghost use Rattle.gomxeli.specs.Calls.{does, ReqOpen, ReqRegister, ReqUnregister, ReqPollPush};

use crate::answer::Answer;

#[unsafe(no_mangle)]
pub extern "C" fn gomxeli_req_open(s: &mut [u8]) -> u64
    ensures { (result ≡ (does ReqOpen s.old).answer) × (s.new ≡ (does ReqOpen s.old).bytes) }
{
    rx_req::open(s).pack()
}

#[unsafe(no_mangle)]
pub extern "C" fn gomxeli_req_register(s: &mut [u8], entry: u32, service: u32) -> u64
    ensures { (result ≡ (does (ReqRegister «entry» service) s.old).answer) × (s.new ≡ (does (ReqRegister «entry» service) s.old).bytes) }
{
    rx_req::register(s, entry, service).pack()
}

#[unsafe(no_mangle)]
pub extern "C" fn gomxeli_req_unregister(s: &mut [u8], entry: u32) -> u64
    ensures { (result ≡ (does (ReqUnregister «entry») s.old).answer) × (s.new ≡ (does (ReqUnregister «entry») s.old).bytes) }
{
    rx_req::unregister(s, entry).pack()
}

#[unsafe(no_mangle)]
pub extern "C" fn gomxeli_req_poll_push(s: &[u8], service: u32, loop_back: u8) -> u64
    ensures { result ≡ (does (ReqPollPush service loop_back) s.now).answer }
{
    rx_req::poll_push(s, service, loop_back != 0).pack()
}
