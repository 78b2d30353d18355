//! Tests of chips that pack several values into one word. Some tests use values that were worked
//! out manually. Other tests make pseudo-random calls from a fixed seed. They compare banks and
//! chains of several sizes with reference models, which store one value in each list element.
ghost use Rattle.std.specs.Prelude.{◌<◌, ◌≤◌};

use crate::checks::expect_equal;
use mcs_fixtures::numbers::RandomNumbers;
use mcs_nibble::{Bit, Nibble};
use mcs_ram4002::{Bank, BankWrite};
use mcs_shift4003::Chain;
use std::process::Abort;
use std::test::Fail;

/// Returns a pseudo-random byte, built from two pseudo-random nibbles.
fn byte(numbers: &mut RandomNumbers) -> u8 {
    numbers.below(16) * 16 + numbers.below(16)
}

fn nibble(numbers: &mut RandomNumbers) -> Nibble {
    Nibble::low_of(numbers.below(16))
}

/// Checks that setting one nibble of a byte does not change the other nibble, for main nibbles and
/// status characters.
#[test]
fn nibbles_of_a_byte_are_independent(rt: HostRuntime) -> Result<(), Fail> {
    let four = Nibble::of(4).ok_or("a nibble")?;
    let mut bank = Bank::<1>::new(1);
    bank.set_at(0, Nibble::MAX);
    bank.set_at(1, four);
    bank.set_status_at(four, 3, Nibble::MAX);
    bank.set_status_at(four, 2, four);
    expect_equal(&rt, bank.at(0).get(), 15);
    expect_equal(&rt, bank.at(1).get(), 4);
    bank.set_status_at(Nibble::ZERO, 2, four);
    bank.set_status_at(Nibble::ZERO, 3, Nibble::MAX);
    expect_equal(&rt, bank.status_at(Nibble::ZERO, 2).get(), 4);
    expect_equal(&rt, bank.status_at(Nibble::ZERO, 3).get(), 15);
    assert_eq!(rt;
        bank.status_at(four, 3).get(),
        0,
        "of a chip that is not there"
    );
    Ok(())
}

/// Shifts a 1 through a chain of 13 bits: across the boundary between two storage words, and out at
/// the end of the chain.
#[test]
fn thirteen_bit_chain_shifts(rt: HostRuntime) {
    let mut chain = Chain::<13>::new(13);
    chain.shift(Bit::ONE);
    for at in 1..=13 {
        chain.shift(Bit::ZERO);
        for i in 0..13 {
            assert_eq!(rt; chain.bit(i), Some(Bit::when(i == at)), "bit {i}");
        }
        expect_equal(&rt, chain.bit(13), None);
    }
}

/// A reference model of a RAM bank, which stores each value in its own list element.
#[derive(Drop)]
struct BankModel {
    chip_count: usize,
    src: u8,
    main: [u8; 256],
    status: [u8; 64],
    ports: [u8; 4],
}

impl BankModel {
    fn new(chip_count: usize) -> BankModel {
        BankModel {
            chip_count,
            src: 0,
            main: [0; 256],
            status: [0; 64],
            ports: [0; 4],
        }
    }

    fn has_chip(&self, chip: u8) -> bool {
        usize::from(chip) < self.chip_count
    }

    fn set_src(&mut self, byte: u8) {
        if self.has_chip(0) {
            self.src = byte;
        }
    }

    fn set_at(&mut self, src: u8, n: Nibble) {
        if self.has_chip(src / 64) {
            self.main[usize::from(src)] = n.get();
        }
    }

    fn set_status(&mut self, high: Nibble, k: u8, n: Nibble)
        requires { k < 4 }
    {
        let register = high.get();
        if self.has_chip(register / 4) {
            self.status[usize::from(register * 4 + k)] = n.get();
        }
    }

    fn set_port(&mut self, chip: u8, n: Nibble)
        requires { chip < 4 }
    {
        if self.has_chip(chip) {
            self.ports[usize::from(chip)] = n.get();
        }
    }
}

/// Makes one random call on a bank, and the same change in the bank's model.
fn call_bank<const CHIPS: usize>(
    bank: &mut Bank<CHIPS>,
    model: &mut BankModel,
    numbers: &mut RandomNumbers,
) {
    let byte = byte(numbers);
    let n = nibble(numbers);
    let k = numbers.below(4);
    let src = model.src;
    match numbers.below(7) {
        0 => {
            bank.src(byte);
            model.set_src(byte);
        }
        1 => {
            bank.set_at(byte, n);
            model.set_at(byte, n);
        }
        2 => {
            bank.set_status_at(Nibble::low_of(byte), k, n);
            model.set_status(Nibble::low_of(byte), k, n);
        }
        3 => {
            bank.store(BankWrite::Port(k, n));
            model.set_port(k, n);
        }
        4 => {
            bank.write(n);
            model.set_at(src, n);
        }
        5 => {
            bank.write_status(k, n);
            model.set_status(Nibble::high_of(src), k, n);
        }
        _ => {
            bank.write_port(n);
            model.set_port(src / 64, n);
        }
    }
}

/// Compares all values that can be read from a bank with the bank's model.
fn compare_bank<const CHIPS: usize>(rt: &impl Abort, bank: &Bank<CHIPS>, model: &BankModel) {
    for src in 0..=255u8 {
        assert_eq!(rt;
            bank.at(src).get(),
            model.main[usize::from(src)],
            "at {src}"
        );
    }
    for index in 0..64u8 {
        let n = bank.status_at(Nibble::low_of(index / 4), index % 4);
        assert_eq!(rt; n.get(), model.status[usize::from(index)], "status {index}");
    }
    for chip in 0..4u8 {
        assert_eq!(rt;
            bank.port(chip).get(),
            model.ports[usize::from(chip)],
            "port {chip}"
        );
    }
    let src = model.src;
    expect_equal(rt, bank.last_src(), src);
    expect_equal(rt, bank.read().get(), model.main[usize::from(src)]);
    for k in 0..4u8 {
        expect_equal(
            rt,
            bank.read_status(k).get(),
            model.status[usize::from(src / 16 * 4 + k)],
        );
    }
}

/// Makes two rounds of 1,500 random calls on a bank and its model, and compares the two after every
/// 30 calls. Clears the bank after each round.
fn run_bank<const CHIPS: usize>(rt: &impl Abort, bank: &mut Bank<CHIPS>, chip_count: usize) {
    let mut numbers = RandomNumbers::new(4002);
    for _ in 0..2 {
        let mut model = BankModel::new(chip_count);
        for _ in 0..50 {
            for _ in 0..30 {
                call_bank(bank, &mut model, &mut numbers);
            }
            compare_bank(rt, bank, &model);
        }
        bank.clear();
        compare_bank(rt, bank, &BankModel::new(chip_count));
    }
}

#[test]
fn banks_match_their_model(rt: HostRuntime) {
    for chip_count in 0..=1 {
        run_bank(&rt, &mut Bank::<1>::new(chip_count), chip_count);
    }
    for chip_count in 0..=2 {
        run_bank(&rt, &mut Bank::<2>::new(chip_count), chip_count);
    }
    for chip_count in 0..=3 {
        run_bank(&rt, &mut Bank::<3>::new(chip_count), chip_count);
    }
    for chip_count in 0..=4 {
        run_bank(&rt, &mut Bank::<4>::new(chip_count), chip_count);
    }
}

/// A reference model of a chain of at most 80 bits, with one list element for each bit. The list is
/// longer than the chain. Its elements after the end of the chain are 0.
#[derive(Drop)]
struct ChainModel {
    list: [u8; 96],
}

impl ChainModel {
    /// Returns ten bits of the list as one number. The bit at the index `first` is the lowest bit of
    /// the number.
    fn ten_bits_from(&self, first: usize) -> u16
        requires { first ≤ 80 }
    {
        let mut value: u16 = 0;
        for j in 0..10 {
            if self.list[first + j] == 1 {
                value |= 1 << j;
            }
        }
        value
    }

    /// Shifts the first `bits` bits of the chain one index up. `level` becomes bit 0.
    fn shift(&mut self, bits: usize, level: Bit)
        requires { bits ≤ 80 }
    {
        for k in (1..96).rev() {
            self.list[k] = self.list[k - 1];
        }
        self.list[0] = level.get();
        self.list[bits] = 0;
    }
}

/// Makes one random call on a chain, and the same change in the chain's model.
fn call_chain<const MAX: usize>(
    chain: &mut Chain<MAX>,
    model: &mut ChainModel,
    numbers: &mut RandomNumbers,
) {
    let bits = chain.bits();
    let level = Bit::low_of(numbers.below(2));
    let i = usize::from(numbers.below(80));
    if bits > 80 {
        return;
    }
    if numbers.below(4) > 0 {
        chain.shift(level);
        model.shift(bits, level);
    } else if i < bits {
        chain.set_bit(i, level);
        model.list[i] = level.get();
    }
}

/// Compares all bits that can be read from a chain with the chain's model.
fn compare_chain<const MAX: usize>(rt: &impl Abort, chain: &Chain<MAX>, model: &ChainModel) {
    let bits = chain.bits();
    if bits > 80 {
        return;
    }
    for i in 0..bits {
        assert_eq!(rt; chain.bit(i), Bit::of(model.list[i]), "bit {i} of {bits}");
        assert_eq!(rt;
            chain.ten_bits_from(i),
            model.ten_bits_from(i),
            "from {i} of {bits}"
        );
    }
    expect_equal(rt, chain.bit(bits), None);
    expect_equal(rt, chain.ten_bits_from(bits), 0);
}

/// Makes 2,000 random calls on a chain and its model, and compares the two after every five calls.
/// Clears the chain before each group of 100 calls.
fn run_chain<const MAX: usize>(rt: &impl Abort, chain: &mut Chain<MAX>) {
    let mut numbers = RandomNumbers::new(4003);
    for _ in 0..20 {
        let mut model = ChainModel { list: [0; 96] };
        chain.clear();
        for _ in 0..20 {
            for _ in 0..5 {
                call_chain(chain, &mut model, &mut numbers);
            }
            compare_chain(rt, chain, &model);
        }
    }
}

#[test]
fn chains_match_their_model(rt: HostRuntime) {
    run_chain(&rt, &mut Chain::<7>::new(7));
    run_chain(&rt, &mut Chain::<10>::new(10));
    run_chain(&rt, &mut Chain::<10>::new(0));
    run_chain(&rt, &mut Chain::<13>::new(13));
    run_chain(&rt, &mut Chain::<13>::new(1));
    run_chain(&rt, &mut Chain::<40>::new(40));
    run_chain(&rt, &mut Chain::<40>::new(20));
    run_chain(&rt, &mut Chain::<80>::new(80));
    run_chain(&rt, &mut Chain::<80>::new(61));
    run_chain(&rt, &mut Chain::<13>::new(0));
}
