//! The encoding of a [`Place`]: a location that `poke` sets, with its new value.
ghost use Rattle.std.specs.Prelude.{◌≡◌, ℕ, ◌+◌, ◌≤◌, ◌∷◌, ◌++◌, List, [], length, take, option_map, Option, Some, None};
ghost use Rattle.mcs_codec.specs.CommandBytes.{place_bytes, IsPlaceInRange};
ghost use Rattle.mcs_codec.specs.CommandReading.{place_at};

use crate::encoding::{Decode, Encode, put};
use crate::reader::Reader;
use mcs_model::command::Place;
use mcs_nibble::{Addr, BankNo, Bit, Nibble, RegNo, StatusNo};

impl Decode for RegNo {
    ghost use Rattle.mcs_codec.specs.Reading.{number_below_at};

    ghost reading = { number_below_at 16 };

    fn read(reader: &mut Reader<'_>) -> Option<RegNo> {
        let value = reader.byte()?;
        RegNo::of(value)
    }
}

impl Decode for BankNo {
    ghost use Rattle.mcs_codec.specs.Reading.{number_below_at};

    ghost reading = { number_below_at 8 };

    fn read(reader: &mut Reader<'_>) -> Option<BankNo> {
        let value = reader.byte()?;
        BankNo::of(value)
    }
}

impl Decode for StatusNo {
    ghost use Rattle.mcs_codec.specs.Reading.{number_below_at};

    ghost reading = { number_below_at 4 };

    fn read(reader: &mut Reader<'_>) -> Option<StatusNo> {
        let value = reader.byte()?;
        StatusNo::of(value)
    }
}

impl Decode for Place {
    ghost use Rattle.mcs_codec.specs.CommandReading.{place_at};

    ghost reading = { place_at };

    #[tactic(auto, unfolding(crate::specs::CommandReading::place_at))]
    fn read(reader: &mut Reader<'_>) -> Option<Place> {
        match reader.byte()? {
            0 => Some(Place::Acc(Nibble::read(reader)?)),
            1 => Some(Place::Cy(Bit::read(reader)?)),
            2 => Some(Place::Pc(Addr::read(reader)?)),
            3 => {
                let register = RegNo::read(reader)?;
                Some(Place::Register(register, Nibble::read(reader)?))
            }
            4 => Some(Place::Dcl(BankNo::read(reader)?)),
            5 => {
                let at = Addr::read(reader)?;
                Some(Place::Rom(at, reader.byte()?))
            }
            6 => {
                let bank = BankNo::read(reader)?;
                let src = reader.byte()?;
                Some(Place::Ram(bank, src, Nibble::read(reader)?))
            }
            7 => {
                let bank = BankNo::read(reader)?;
                let high = Nibble::read(reader)?;
                let k = StatusNo::read(reader)?;
                Some(Place::Status(bank, high, k, Nibble::read(reader)?))
            }
            _ => None,
        }
    }
}

impl Encode for Place {
    ghost use Rattle.mcs_codec.specs.CommandBytes.{place_bytes};

    ghost spelling = { place_bytes };

    fn put(&self, out: &mut [u8], at: usize) -> usize {
        match *self {
            Place::Acc(n) => put(out, at, &[0, n.get()]),
            Place::Cy(bit) => put(out, at, &[1, bit.get()]),
            Place::Pc(address) => {
                let at = put(out, at, &[2]);
                address.put(out, at)
            }
            Place::Register(register, n) => put(out, at, &[3, register.get(), n.get()]),
            Place::Dcl(bank) => put(out, at, &[4, bank.get()]),
            Place::Rom(address, byte) => {
                let at = put(out, at, &[5]);
                let at = address.put(out, at);
                put(out, at, &[byte])
            }
            Place::Ram(bank, src, n) => put(out, at, &[6, bank.get(), src, n.get()]),
            Place::Status(bank, high, k, n) => {
                put(out, at, &[7, bank.get(), high.get(), k.get(), n.get()])
            }
        }
    }
}

/// Proves that each number of a [`Place`] is in its range.
pub fn show_place_is_in_range(place: Place)
    ensures { IsPlaceInRange place }
{
    match place {
        Place::Acc(n) => {
            n.get();
        }
        Place::Cy(bit) => {
            bit.get();
        }
        Place::Pc(address) => {
            address.get();
        }
        Place::Register(register, n) => {
            register.get();
            n.get();
        }
        Place::Dcl(bank) => {
            bank.get();
        }
        Place::Rom(address, _byte) => {
            address.get();
        }
        Place::Ram(bank, _src, n) => {
            bank.get();
            n.get();
        }
        Place::Status(bank, high, k, n) => {
            bank.get();
            high.get();
            k.get();
            n.get();
        }
    }
}
