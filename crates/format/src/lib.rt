// The tail byte of a frame, after emcyphal/src/format.rs. That file's transfer CRC is left out. A contract sees a tail byte as its number.
#![tactic(auto)]

ghost use Rattle.std.specs.Prelude.{◌≡◌, ◌%◌, ◌<◌, ℕ};
ghost use Rattle.emcyphal_core.specs.Ids.{transfers};
ghost use Rattle.emcyphal_core.specs.Sets.{has};
ghost use Rattle.format.specs.Tail.{tail_byte, eot_frame, Fields};

use emcyphal_core::TransferId;
use std::marker::Model;

/// Bit 7 is start of transfer, 6 end of transfer, 5 the toggle; the transfer id is in bits 4 to 0.
#[derive(Clone, Copy, Default)]
pub struct TailByte(u8);

impl Model for TailByte {
    ghost Value = { ℕ };

    ghost view = { λ t. t.0 };

    ghost inverse = { λ b. record { 0 = b } };
}

impl TailByte {
    const START_OF_TRANSFER: u8 = 7;

    const END_OF_TRANSFER: u8 = 6;

    const TOGGLE_BIT: u8 = 5;

    const TRANSFER_ID: u8 = 0;

    #[tactic(auto, using(crate::proofs::Laws::is_made))]
    pub fn new(sot: bool, eot: bool, toggle: bool, transfer_id: TransferId) -> Self
        ensures { result ≡ tail_byte sot eot toggle transfer_id }
    {
        TailByte(
            (sot as u8) << Self::START_OF_TRANSFER
                | (eot as u8) << Self::END_OF_TRANSFER
                | (toggle as u8) << Self::TOGGLE_BIT
                | u8::from(transfer_id) << Self::TRANSFER_ID,
        )
    }

    fn bit(&self, n: u8) -> bool
        requires { n < 8 }
        ensures { result ≡ has self.now n }
    {
        (self.0 >> n) & 0x1 != 0
    }

    pub fn sot(&self) -> bool
        ensures { result ≡ has self.now 7 }
    {
        self.bit(Self::START_OF_TRANSFER)
    }

    pub fn eot(&self) -> bool
        ensures { result ≡ has self.now 6 }
    {
        self.bit(Self::END_OF_TRANSFER)
    }

    pub fn toggle(&self) -> bool
        ensures { result ≡ has self.now 5 }
    {
        self.bit(Self::TOGGLE_BIT)
    }

    pub fn transfer_id(&self) -> TransferId
        ensures { result ≡ self.now % transfers }
    {
        TransferId::from_u8_truncating(self.0 >> Self::TRANSFER_ID)
    }
}

impl From<TailByte> for u8 {
    ghost from_gives = { λ t n. n ≡ t };

    fn from(value: TailByte) -> Self {
        value.0
    }
}

impl From<u8> for TailByte {
    ghost from_gives = { λ n t. t ≡ n };

    fn from(value: u8) -> Self {
        TailByte(value)
    }
}

/// The toggle bit of a transfer's first frame.
pub const SOT_TOGGLE_BIT: bool = true;

pub const PAD_VALUE: u8 = 0;

/// Whether a frame ends its transfer; none for an empty frame.
pub fn is_eot_frame(frame: &[u8]) -> Option<bool>
    ensures { result ≡ eot_frame frame.now }
{
    let byte = *frame.last()?;
    Some(TailByte::from(byte).eot())
}

/// Does nothing: its contract is the theorem that each field of a tail byte reads back.
pub fn fields_read_back()
    ensures { Fields }
{}
