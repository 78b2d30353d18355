//! Determines the exact registers at each address. An entry has a single value for an exact register: each value of
//! the register has its own entry.
//!
//! A register is exact at an address if it is relevant there: its value may reach an instruction that needs an exact
//! register. The relevant registers form a backward slice of the program. The counter of a loop is also relevant if
//! the loop changes a register that is relevant at the loop's first instruction. Nothing is proved about a slice,
//! because the slice only affects which certificate the search finds.
use crate::precision::{ACC, CARRY, Level, exact_registers_needed, pair_bits, register_bit};
use mcs_board::BenchRig;
use mcs_cpu4004::Cpu;
use mcs_model::op::Op;
use mcs_nibble::{Addr, PairNo};
use std::alloc::{AllocError, Global};

/// The number of ROM addresses.
const ADDRESS_COUNT: u16 = 4096;

/// The maximum number of passes over all addresses.
const MAX_PASSES: u16 = 1000;

/// The maximum number of passes over a loop.
const MAX_LOOP_PASSES: u16 = 8;

/// The mask that selects the index registers from a set, without accumulator and carry.
const REGISTER_MASK: u32 = 65535;

/// Returns whether an instruction has two words.
fn has_two_words(op: &Op) -> bool {
    match op {
        Op::Jcn(_, _) | Op::Fim(_, _) | Op::Jun(_, _) | Op::Jms(_, _) | Op::Isz(_, _) => true,
        _ => false,
    }
}

/// Returns the address of the instruction that follows `op` in ROM. `op` is at the address `at`.
fn next_address(op: &Op, at: Addr) -> Addr {
    at.plus(if has_two_words(op) { 2 } else { 1 })
}

/// Returns whether execution may continue at the next instruction in the same routine.
fn falls_through(op: &Op) -> bool {
    match op {
        Op::Jun(_, _) | Op::Jin(_) | Op::Bbl(_) => false,
        _ => true,
    }
}

/// Returns the address to which a JCN, ISZ or JUN may jump, or `None` for any other instruction.
fn jump_target(op: &Op, at: Addr) -> Option<Addr> {
    match op {
        Op::Jcn(_, word) | Op::Isz(_, word) => Some(Addr::on_page(at.plus(2).page(), *word)),
        Op::Jun(page, word) => Some(Addr::on_page(*page, *word)),
        _ => None,
    }
}

/// Returns the address of the routine that a JMS calls, or `None` for any other instruction.
fn callee(op: &Op) -> Option<Addr> {
    match op {
        Op::Jms(page, word) => Some(Addr::on_page(*page, *word)),
        _ => None,
    }
}

/// Returns the first address of the page to which a JIN jumps, or `None` for any other instruction.
fn jump_page_start(op: &Op, at: Addr) -> Option<Addr> {
    match op {
        Op::Jin(_) => Some(Addr::on_page(at.plus(1).page(), 0)),
        _ => None,
    }
}

/// Returns the instruction at an address.
fn op_at(rig: &BenchRig, at: Addr) -> Option<Op> {
    mcs_board::instruction(&Cpu::new(), rig, at)
}

/// A table with a set, as a bit mask, for each address.
#[derive(Drop)]
struct Table {
    sets: Vec<u32>,
}

impl Table {
    /// Creates a table in which all sets are empty.
    fn new(alloc: Global) -> Result<Table, AllocError> {
        let mut sets = Vec::new(alloc);
        for _ in 0..ADDRESS_COUNT {
            sets.push(0u32)?;
        }
        Ok(Table { sets })
    }

    /// Makes all sets empty.
    fn clear(&mut self) {
        for i in 0..self.sets.len() {
            self.sets[i] = 0;
        }
    }

    /// Returns the set at an address.
    fn get(&self, at: Addr) -> u32 {
        let i = usize::from(at.get());
        if i < self.sets.len() { self.sets[i] } else { 0 }
    }

    /// Adds the members of `more` to the set at an address. Returns whether the set grew.
    fn add(&mut self, at: Addr, more: u32) -> bool {
        let i = usize::from(at.get());
        if i >= self.sets.len() {
            return false;
        }
        let before = self.sets[i];
        self.sets[i] = before | more;
        more & !before != 0
    }

    /// Returns the union of the sets of an instruction's successors in the same routine.
    fn union_of_successors(&self, op: &Op, at: Addr) -> u32 {
        let mut members = 0;
        if falls_through(op) {
            members |= self.get(next_address(op, at));
        }
        if let Some(target) = jump_target(op, at) {
            members |= self.get(target);
        }
        if let Some(page) = jump_page_start(op, at) {
            for word in 0..256u16 {
                members |= self.get(page.plus(word));
            }
        }
        members
    }

    /// Adds the members of `more` to the sets of an instruction's successors in the same routine. Returns whether any
    /// set grew.
    fn add_to_successors(&mut self, op: &Op, at: Addr, more: u32) -> bool {
        let mut grew = false;
        if falls_through(op) {
            grew |= self.add(next_address(op, at), more);
        }
        if let Some(target) = jump_target(op, at) {
            grew |= self.add(target, more);
        }
        if let Some(page) = jump_page_start(op, at) {
            for word in 0..256u16 {
                grew |= self.add(page.plus(word), more);
            }
        }
        grew
    }
}

/// Returns the index registers that an instruction writes.
fn registers_written(op: &Op) -> u32 {
    match op {
        Op::Fim(k, _) | Op::Fin(k) => pair_bits(*k),
        Op::Inc(r) | Op::Isz(r, _) | Op::Xch(r) => register_bit(*r),
        _ => 0,
    }
}

/// Returns `set` with the members of `old` replaced by those of `new`, if `set` has a member of `old`. Otherwise
/// returns `set` unchanged.
fn replace_members(set: u32, old: u32, new: u32) -> u32 {
    if set & old != 0 {
        (set & !old) | new
    } else {
        set
    }
}

/// Returns the registers that are relevant before an instruction, given those that are relevant after it.
fn relevant_before(op: &Op, after: u32) -> u32 {
    let flags = ACC | CARRY;
    match op {
        Op::Fim(k, _) => after & !pair_bits(*k),
        Op::Fin(k) => replace_members(after, pair_bits(*k), pair_bits(PairNo::ZERO)),
        Op::Add(r) | Op::Sub(r) => replace_members(after, flags, flags | register_bit(*r)),
        Op::Ld(r) => replace_members(after, ACC, register_bit(*r)),
        Op::Xch(r) => replace_members(after & !register_bit(*r), ACC, register_bit(*r))
            | replace_members(after & register_bit(*r), register_bit(*r), ACC),
        Op::Rdm | Op::Rdr | Op::Rd0 | Op::Rd1 | Op::Rd2 | Op::Rd3 => after & !ACC,
        Op::Ldm(_) | Op::Bbl(_) => after & !ACC,
        Op::Clb => after & !flags,
        Op::Clc | Op::Stc | Op::Iac | Op::Dac => after & !CARRY,
        Op::Ral | Op::Rar | Op::Daa => replace_members(after, flags, flags),
        Op::Tcc | Op::Tcs => replace_members(after & !CARRY, ACC, CARRY),
        _ => after,
    }
}

/// The known facts about each address of a program.
#[derive(Drop)]
struct Slice {
    /// 1 if the address may be reached, and otherwise 0.
    reached: Table,
    /// The registers that the program may write from the address until the routine that contains the address returns.
    may_write: Table,
    /// The registers written by the loop that ends with an ISZ at the address.
    loop_writes: Table,
    /// The registers that are relevant when the routine that contains the address returns.
    relevant_on_return: Table,
    /// The registers that are relevant at the address.
    relevant: Table,
}

impl Slice {
    fn new(alloc: Global) -> Result<Slice, AllocError> {
        Ok(Slice {
            reached: Table::new(alloc)?,
            may_write: Table::new(alloc)?,
            loop_writes: Table::new(alloc)?,
            relevant_on_return: Table::new(alloc)?,
            relevant: Table::new(alloc)?,
        })
    }

    /// Returns the instruction at an address, or `None` if the address is not known to be reached.
    fn op_if_reached(&self, rig: &BenchRig, at: Addr) -> Option<Op> {
        if self.reached.get(at) == 0 {
            return None;
        }
        op_at(rig, at)
    }

    /// Marks the successors and the callee of each reached address as reached. Returns whether an address was newly
    /// marked.
    fn mark_reached_once(&mut self, rig: &BenchRig) -> bool {
        let mut grew = false;
        for n in 0..ADDRESS_COUNT {
            let at = Addr::ZERO.plus(n);
            if let Some(op) = self.op_if_reached(rig, at) {
                grew |= self.reached.add_to_successors(&op, at, 1);
                if let Some(routine) = callee(&op) {
                    grew |= self.reached.add(routine, 1);
                }
            }
        }
        grew
    }

    /// Marks all addresses that may be reached from `start`.
    fn mark_reached(&mut self, rig: &BenchRig, start: Addr) {
        self.reached.add(start, 1);
        for _ in 0..MAX_PASSES {
            if !self.mark_reached_once(rig) {
                break;
            }
        }
    }

    /// Returns the registers that an instruction writes. For a call, returns the registers that the called routine
    /// may write.
    fn writes_of(&self, op: &Op) -> u32 {
        match callee(op) {
            Some(routine) => self.may_write.get(routine),
            None => registers_written(op),
        }
    }

    /// Makes one pass over all addresses. Adds to `may_write` the registers that the instruction at each address and
    /// its successors may write. Returns whether a set grew.
    fn extend_may_write(&mut self, rig: &BenchRig) -> bool {
        let mut grew = false;
        for n in 0..ADDRESS_COUNT {
            let at = Addr::MAX.plus(ADDRESS_COUNT - n);
            if let Some(op) = self.op_if_reached(rig, at) {
                let written_later = self.may_write.union_of_successors(&op, at);
                let set = written_later | self.writes_of(&op);
                grew |= self.may_write.add(at, set);
            }
        }
        grew
    }

    /// Computes `may_write` for each address.
    fn compute_may_write(&mut self, rig: &BenchRig) {
        for _ in 0..MAX_PASSES {
            if !self.extend_may_write(rig) {
                break;
            }
        }
    }

    /// Adds to the body of a loop each address between `head` and `last` that has a successor in the body. Returns
    /// whether the body grew.
    fn add_to_body(&self, rig: &BenchRig, body: &mut Table, head: Addr, last: Addr) -> bool {
        let mut grew = false;
        for n in 0..ADDRESS_COUNT {
            let at = Addr::MAX.plus(ADDRESS_COUNT - n);
            if head < at && at < last {
                if let Some(op) = self.op_if_reached(rig, at) {
                    let members = body.union_of_successors(&op, at);
                    grew |= body.add(at, members);
                }
            }
        }
        grew
    }

    /// Returns the registers that are written in the body of a loop, except by its last instruction.
    fn writes_of_body(&self, rig: &BenchRig, body: &Table, head: Addr, last: Addr) -> u32 {
        let mut written = 0;
        for n in head.get()..last.get() {
            let at = Addr::ZERO.plus(n);
            if at == head || body.get(at) != 0 {
                if let Some(op) = self.op_if_reached(rig, at) {
                    written |= self.writes_of(&op);
                }
            }
        }
        written
    }

    /// Returns the registers that are written in the loop from `head` to `last`, except by the instruction at `last`.
    /// That instruction jumps back to `head`. `body` is scratch space.
    fn writes_of_loop(&self, rig: &BenchRig, body: &mut Table, head: Addr, last: Addr) -> u32 {
        body.clear();
        body.add(last, 1);
        for _ in 0..MAX_LOOP_PASSES {
            if !self.add_to_body(rig, body, head, last) {
                break;
            }
        }
        self.writes_of_body(rig, body, head, last)
    }

    /// Computes, for each ISZ that jumps back, the registers that its loop writes. `body` is scratch space for one
    /// loop.
    fn find_loops(&mut self, rig: &BenchRig, body: &mut Table) {
        for n in 0..ADDRESS_COUNT {
            let at = Addr::ZERO.plus(n);
            if let Some(Op::Isz(_, word)) = self.op_if_reached(rig, at) {
                let head = Addr::on_page(at.plus(2).page(), word);
                if head < at {
                    let set = self.writes_of_loop(rig, body, head, at);
                    self.loop_writes.add(at, set);
                }
            }
        }
    }

    /// Returns the set that contains the loop counter of an ISZ, if the loop writes a register that is relevant at the
    /// head of the loop. Otherwise returns the empty set.
    fn loop_counter(&self, op: &Op, at: Addr) -> u32 {
        match op {
            Op::Isz(r, word) => {
                let head = Addr::on_page(at.plus(2).page(), *word);
                if self.relevant.get(head) & self.loop_writes.get(at) & REGISTER_MASK != 0 {
                    register_bit(*r)
                } else {
                    0
                }
            }
            _ => 0,
        }
    }

    /// Returns the registers that are relevant after an instruction.
    fn relevant_after(&self, op: &Op, at: Addr) -> u32 {
        match op {
            Op::Bbl(_) => self.relevant_on_return.get(at),
            _ => match callee(op) {
                Some(routine) => self.relevant.get(routine),
                None => self.relevant.union_of_successors(op, at),
            },
        }
    }

    /// Makes one pass over all addresses. Adds to `relevant` the registers that are found to be relevant at each
    /// address. Returns whether a set grew.
    fn add_relevant(&mut self, rig: &BenchRig, level: Level) -> bool {
        let mut grew = false;
        for n in 0..ADDRESS_COUNT {
            let at = Addr::MAX.plus(ADDRESS_COUNT - n);
            if let Some(op) = self.op_if_reached(rig, at) {
                let after = self.relevant_after(&op, at);
                let set = relevant_before(&op, after)
                    | exact_registers_needed(level, &op)
                    | self.loop_counter(&op, at);
                grew |= self.relevant.add(at, set);
            }
        }
        grew
    }

    /// Makes one pass over all addresses. Adds to `relevant_on_return`, for each address, the registers that are
    /// relevant when the routine that contains the address returns. Returns whether a set grew.
    fn add_relevant_on_return(&mut self, rig: &BenchRig) -> bool {
        let mut grew = false;
        for n in 0..ADDRESS_COUNT {
            let at = Addr::ZERO.plus(n);
            if let Some(op) = self.op_if_reached(rig, at) {
                let set = self.relevant_on_return.get(at);
                grew |= self.relevant_on_return.add_to_successors(&op, at, set);
                if let Some(routine) = callee(&op) {
                    let relevant_after_call = self.relevant.get(next_address(&op, at));
                    grew |= self.relevant_on_return.add(routine, relevant_after_call);
                }
            }
        }
        grew
    }

    /// Computes the registers that are relevant at each address.
    fn find_relevant(&mut self, rig: &BenchRig, level: Level) {
        for _ in 0..MAX_PASSES {
            let grew = self.add_relevant(rig, level);
            if !self.add_relevant_on_return(rig) && !grew {
                break;
            }
        }
    }
}

/// Returns the registers that are relevant at one or more addresses.
fn relevant_somewhere(slice: &Slice) -> u32 {
    let mut members = 0;
    for n in 0..ADDRESS_COUNT {
        members |= slice.relevant.get(Addr::ZERO.plus(n));
    }
    members
}

/// Returns the exact registers at each address, for a program that begins at `start`. Bit `r` of a mask is 1 if
/// register `r` is exact.
pub(crate) fn exact_registers(
    alloc: Global,
    rig: &BenchRig,
    start: Addr,
    level: Level,
) -> Result<Vec<u16>, AllocError> {
    let mut slice = Slice::new(alloc)?;
    if level != Level::None {
        let mut body = Table::new(alloc)?;
        slice.mark_reached(rig, start);
        slice.compute_may_write(rig);
        slice.find_loops(rig, &mut body);
        slice.find_relevant(rig, level);
    }
    let exact_everywhere = if level == Level::SrcEverywhere {
        relevant_somewhere(&slice)
    } else {
        0
    };
    let mut exact = Vec::new(alloc);
    for n in 0..ADDRESS_COUNT {
        let set = slice.relevant.get(Addr::ZERO.plus(n)) | exact_everywhere;
        exact.push((set & REGISTER_MASK) as u16)?;
    }
    Ok(exact)
}
