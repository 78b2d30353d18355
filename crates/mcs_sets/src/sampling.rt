//! Samples: representative choices of an entry, and the entries to which these choices lead.
use crate::entries::Entry;
use crate::landing::Landing;
use mcs_model::op::Op;
use mcs_nibble::Addr;

/// Returns the set that contains only `n`, or the empty set if `n` is above 15.
pub(crate) fn singleton(n: u8) -> u16 {
    if n < 16 { 1 << n } else { 0 }
}

/// Returns the set that contains only the smallest number of a set, or the empty set if the set is empty.
fn set_of_smallest(set: u16) -> u16 {
    if set == 0 {
        return 0;
    }
    singleton(set.trailing_zeros() as u8)
}

/// Returns whether an instruction leaves the accumulator and the carry unchanged, and sets no location of an entry to a
/// value that depends on them.
fn ignores_flags(op: &Op) -> bool {
    match op {
        Op::Nop | Op::Fim(_, _) | Op::Src(_) | Op::Fin(_) | Op::Jin(_) | Op::Jun(_, _) => true,
        Op::Jms(_, _) | Op::Inc(_) | Op::Isz(_, _) | Op::Wrm | Op::Wmp | Op::Wrr => true,
        Op::Wr0 | Op::Wr1 | Op::Wr2 | Op::Wr3 => true,
        _ => false,
    }
}

/// Returns whether an instruction replaces the accumulator with a value that depends neither on the accumulator nor
/// on the carry.
fn replaces_acc(op: &Op) -> bool {
    match op {
        Op::Rdm | Op::Rdr | Op::Rd0 | Op::Rd1 | Op::Rd2 | Op::Rd3 => true,
        Op::Ld(_) | Op::Ldm(_) | Op::Bbl(_) => true,
        _ => false,
    }
}

/// Returns whether the location that an instruction changes depends on the bank number.
fn uses_bank(op: &Op) -> bool {
    match op {
        Op::Src(_) => true,
        _ => false,
    }
}

/// Returns whether an instruction selects a bank.
fn selects_bank(op: &Op) -> bool {
    match op {
        Op::Dcl => true,
        _ => false,
    }
}

/// Returns a copy of an entry with fewer choices. Of the accumulator, the carry and the bank, each is reduced to a
/// single value if the instruction's effect on an entry does not depend on it.
pub(crate) fn sample(source: &Entry, op: &Op) -> Entry {
    let mut entry = *source;
    if ignores_flags(op) {
        entry.acc_if_carry_0 = set_of_smallest(source.acc_if_carry_0);
        entry.acc_if_carry_1 = if source.acc_if_carry_0 == 0 {
            set_of_smallest(source.acc_if_carry_1)
        } else {
            0
        };
    }
    if replaces_acc(op) {
        entry.acc_if_carry_0 = set_of_smallest(source.acc_if_carry_0);
        entry.acc_if_carry_1 = set_of_smallest(source.acc_if_carry_1);
    }
    if !uses_bank(op) {
        entry.sets[16] = set_of_smallest(source.sets[16]);
    }
    entry
}

/// Returns the return addresses of the open calls, followed by zeros.
fn open_returns(ret: &[Addr; 3], calls: u8) -> [Addr; 3] {
    [
        if calls > 0 { ret[0] } else { Addr::ZERO },
        if calls > 1 { ret[1] } else { Addr::ZERO },
        if calls > 2 { ret[2] } else { Addr::ZERO },
    ]
}

/// Returns the successor of `source` for one sampled choice and all choices that this choice represents. `landing` is
/// the landing of the sampled choice.
pub(crate) fn successor_entry(source: &Entry, op: &Op, landing: &Landing) -> Entry {
    let regs = &landing.regs;
    let acc = singleton(regs.acc.get());
    let mut entry = Entry {
        at: regs.pc,
        calls: landing.calls,
        ret: open_returns(&regs.ret, landing.calls),
        acc_if_carry_0: if regs.cy.get() == 0 { acc } else { 0 },
        acc_if_carry_1: if regs.cy.get() == 0 { 0 } else { acc },
        sets: source.sets,
        first_link: 0,
        end_link: 0,
    };
    if ignores_flags(op) {
        entry.acc_if_carry_0 = source.acc_if_carry_0;
        entry.acc_if_carry_1 = source.acc_if_carry_1;
    }
    if landing.second_location < 26 {
        entry.sets[usize::from(landing.second_location)] = singleton(landing.second_value);
    }
    if landing.first_location < 26 {
        entry.sets[usize::from(landing.first_location)] = singleton(landing.first_value);
    }
    if selects_bank(op) {
        entry.sets[16] = singleton(regs.dcl);
    }
    entry
}

/// Adds all values of `more` to `entry`. Returns whether `entry` grew.
pub(crate) fn join(entry: &mut Entry, more: &Entry) -> bool {
    let mut added = (more.acc_if_carry_0 & !entry.acc_if_carry_0)
        | (more.acc_if_carry_1 & !entry.acc_if_carry_1);
    entry.acc_if_carry_0 |= more.acc_if_carry_0;
    entry.acc_if_carry_1 |= more.acc_if_carry_1;
    for k in 0..26usize {
        added |= more.sets[k] & !entry.sets[k];
        entry.sets[k] |= more.sets[k];
    }
    added != 0
}
