// The calls of the request registry. Each contract is the call's line of `does` in specs/Calls.antt.
ghost use Rattle.std.specs.Prelude.{◌≡◌};
ghost use Rattle.gomxeli.specs.Calls.{does, ReqOpen, ReqRegister, ReqUnregister, ReqPollPush};

#[unsafe(no_mangle)]
pub extern "C" fn gomxeli_req_open(s: &mut [u8]) -> u64
    ensures { (result ≡ (does ReqOpen s.old).answer) × (s.new ≡ (does ReqOpen s.old).bytes) }
{
    gomxeli::req::gomxeli_req_open(s)
}

#[unsafe(no_mangle)]
pub extern "C" fn gomxeli_req_register(s: &mut [u8], entry: u32, service: u32) -> u64
    ensures { (result ≡ (does (ReqRegister «entry» service) s.old).answer) × (s.new ≡ (does (ReqRegister «entry» service) s.old).bytes) }
{
    gomxeli::req::gomxeli_req_register(s, entry, service)
}

#[unsafe(no_mangle)]
pub extern "C" fn gomxeli_req_unregister(s: &mut [u8], entry: u32) -> u64
    ensures { (result ≡ (does (ReqUnregister «entry») s.old).answer) × (s.new ≡ (does (ReqUnregister «entry») s.old).bytes) }
{
    gomxeli::req::gomxeli_req_unregister(s, entry)
}

#[unsafe(no_mangle)]
pub extern "C" fn gomxeli_req_poll_push(s: &[u8], service: u32, loop_back: u8) -> u64
    ensures { result ≡ (does (ReqPollPush service loop_back) s.now).answer }
{
    gomxeli::req::gomxeli_req_poll_push(s, service, loop_back)
}
