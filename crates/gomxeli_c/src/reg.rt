// The calls of the regular registry. Each contract is the call's line of `does` in specs/Calls.antt.
ghost use Rattle.std.specs.Prelude.{◌≡◌};
ghost use Rattle.gomxeli.specs.Calls.{does, RegOpen, RegRegister, RegUnregister, RegPollPop, RegHubPushStart, RegHubPushNext};

#[unsafe(no_mangle)]
pub extern "C" fn gomxeli_reg_open(s: &mut [u8], slots: u32) -> u64
    ensures { (result ≡ (does (RegOpen «slots») s.old).answer) × (s.new ≡ (does (RegOpen «slots») s.old).bytes) }
{
    gomxeli::reg::gomxeli_reg_open(s, slots)
}

#[unsafe(no_mangle)]
pub extern "C" fn gomxeli_reg_register(s: &mut [u8], entry: u32, subject: u32) -> u64
    ensures { (result ≡ (does (RegRegister «entry» subject) s.old).answer) × (s.new ≡ (does (RegRegister «entry» subject) s.old).bytes) }
{
    gomxeli::reg::gomxeli_reg_register(s, entry, subject)
}

#[unsafe(no_mangle)]
pub extern "C" fn gomxeli_reg_unregister(s: &mut [u8], entry: u32) -> u64
    ensures { (result ≡ (does (RegUnregister «entry») s.old).answer) × (s.new ≡ (does (RegUnregister «entry») s.old).bytes) }
{
    gomxeli::reg::gomxeli_reg_unregister(s, entry)
}

#[unsafe(no_mangle)]
pub extern "C" fn gomxeli_reg_poll_pop(s: &mut [u8]) -> u64
    ensures { (result ≡ (does RegPollPop s.old).answer) × (s.new ≡ (does RegPollPop s.old).bytes) }
{
    gomxeli::reg::gomxeli_reg_poll_pop(s)
}

#[unsafe(no_mangle)]
pub extern "C" fn gomxeli_reg_hub_push_start(s: &mut [u8], subject: u32) -> u64
    ensures { (result ≡ (does (RegHubPushStart subject) s.old).answer) × (s.new ≡ (does (RegHubPushStart subject) s.old).bytes) }
{
    gomxeli::reg::gomxeli_reg_hub_push_start(s, subject)
}

#[unsafe(no_mangle)]
pub extern "C" fn gomxeli_reg_hub_push_next(s: &mut [u8]) -> u64
    ensures { (result ≡ (does RegHubPushNext s.old).answer) × (s.new ≡ (does RegHubPushNext s.old).bytes) }
{
    gomxeli::reg::gomxeli_reg_hub_push_next(s)
}
