//! The effect of each instruction on the registers and the bus.
ghost use Rattle.std.specs.Prelude.{◌≡◌, ℕ, ◌+◌, ◌-◌, ◌%◌, ◌<◌, ◌==◌, if◌then◌else◌, [], ◌∷◌, slice_index};
ghost use Rattle.mcs_model.specs.Effect.{effect, address_on_page_of, with_sum, is_taken, after_jcn, after_isz, after_rar, after_daa, key_of};
ghost use Rattle.mcs_model.specs.Table.{cycles_of};
ghost use Rattle.mcs_model.specs.Registers.{register_of, pair_of, with_register, with_pair};
ghost use Rattle.mcs_model.specs.Bus.{fetch_of};

use crate::bus::Bus;
use mcs_code::{Op, instructions, operand_pattern};
use mcs_model::regs::Regs;
use mcs_nibble::{Addr, Bit, Nibble, PairNo, RegNo};

/// Returns the address on the page of `at` whose lower eight bits are `word`.
#[inline(always)]
fn address_of_word(at: Addr, word: u8) -> Addr
    ensures { result ≡ address_on_page_of at word }
{
    Addr::on_page(at.page(), word)
}

/// Returns true if a JCN with this condition jumps. `test` is the level of the TEST pin.
#[inline(always)]
fn takes_jump(condition: Nibble, regs: &Regs, test: Bit) -> bool
    ensures { result ≡ is_taken condition regs.now test }
{
    let c = condition.get();
    let holds = c / 4 % 2 == 1 && regs.acc.get() == 0
        || c / 2 % 2 == 1 && regs.cy.get() == 1
        || c % 2 == 1 && test.get() == 0;
    if c / 8 % 2 == 1 { !holds } else { holds }
}

/// Returns the program counter after JCN. `test` is the level of the TEST pin, and `next` is the address after the
/// two words of JCN.
#[inline(always)]
fn pc_after_jcn(regs: &Regs, condition: Nibble, word: u8, test: Bit, next: Addr) -> Addr
    ensures { record regs.now { pc = result }
        ≡ after_jcn condition word (record regs.now { pc = next }) test }
{
    if takes_jump(condition, regs, test) {
        address_of_word(next, word)
    } else {
        next
    }
}

/// Loads a register pair from program memory, as FIN does. `next` is the address after the one word of FIN.
#[inline(always)]
fn fetch_indirect<B: Bus>(regs: &mut Regs, bus: &B, pair: PairNo, next: Addr)
    ensures { regs.new ≡ with_pair regs.old pair
        (fetch_of (B.flat bus.now) (address_on_page_of next (pair_of regs.old 0))) }
{
    let from = address_of_word(next, regs.pair(PairNo::ZERO));
    regs.set_pair(pair, bus.fetch(from));
}

/// Pushes `next` as a return address, as JMS does: it becomes the first entry, and the last entry is lost. `next` is
/// the address after the two words of JMS.
#[inline(always)]
fn push(regs: &mut Regs, next: Addr)
    ensures { regs.new ≡ record regs.old
        { ret = next ∷ slice_index regs.old.ret 0 ∷ slice_index regs.old.ret 1 ∷ [] } }
{
    let ret = [next, regs.ret[0], regs.ret[1]];
    regs.ret = ret;
}

/// Removes the first return address, as BBL does. `next`, the address after the one word of BBL, becomes the last
/// entry.
#[inline(always)]
fn pop(regs: &mut Regs, next: Addr)
    ensures { regs.new ≡ record regs.old
        { ret = slice_index regs.old.ret 1 ∷ slice_index regs.old.ret 2 ∷ next ∷ [] } }
{
    let ret = [regs.ret[1], regs.ret[2], next];
    regs.ret = ret;
}

/// Increments a register modulo 16, as INC does. The carry does not change.
#[inline(always)]
fn increment_register(regs: &mut Regs, r: RegNo)
    ensures { regs.new ≡ with_register regs.old r ((register_of regs.old r + 1) % 16) }
{
    let (sum, _) = regs.register(r).add(Nibble::ONE, Bit::ZERO);
    regs.set_register(r, sum);
}

/// Returns `next` unchanged. `increment_and_jump` calls this function when ISZ does not jump, which is rare. The call
/// makes the compiler emit a branch for this decision. The host can predict a branch, so it need not wait for the
/// value of a register.
///
/// The emulated registers are not parameters: if they were, the compiler would assume that the call can change each of
/// them. The compiler cannot see that adding 0 has no effect, so it keeps the call.
#[cold]
#[inline(never)]
fn fall_through(next: Addr) -> Addr
    ensures { result ≡ next }
{
    Addr::ZERO.plus(next.get())
}

/// Executes ISZ, but returns the next program counter instead of storing it. `next` is the address after the two
/// words of ISZ.
#[inline(always)]
fn increment_and_jump(regs: &mut Regs, r: RegNo, word: u8, next: Addr) -> Addr
    ensures effect { record regs.new { pc = result }
        ≡ after_isz r word (record regs.old { pc = next }) }
    ensures pc { regs.new.pc ≡ regs.old.pc }
{
    if regs.register(r) == Nibble::MAX {
        regs.set_register(r, Nibble::ZERO);
        return fall_through(next);
    }
    increment_register(regs, r);
    address_of_word(next, word)
}

/// Adds a nibble and the carry to the accumulator, as ADD and ADM do.
#[inline(always)]
fn add(regs: &mut Regs, n: Nibble)
    ensures { regs.new ≡ with_sum regs.old (regs.old.acc + n + regs.old.cy) }
{
    (regs.acc, regs.cy) = regs.acc.add(n, regs.cy);
}

/// Subtracts a nibble from the accumulator with borrow, as SUB and SBM do.
#[inline(always)]
fn subtract(regs: &mut Regs, n: Nibble)
    ensures { regs.new ≡ with_sum regs.old (regs.old.acc + (15 - n) + (1 - regs.old.cy)) }
{
    (regs.acc, regs.cy) = regs.acc.sub_borrow(n, regs.cy);
}

/// Rotates the accumulator and the carry right by one bit, as RAR does.
#[inline(always)]
fn rotate_right(regs: &mut Regs)
    ensures { regs.new ≡ after_rar regs.old }
{
    let acc = regs.acc.get();
    regs.acc = Nibble::low_of(8 * regs.cy.get() + acc / 2);
    regs.cy = Bit::low_of(acc);
}

/// Loads 9 plus the carry into the accumulator and clears the carry, as TCS does.
#[inline(always)]
fn transfer_carry_subtract(regs: &mut Regs)
    ensures { regs.new ≡ record regs.old { acc = 9 + regs.old.cy; cy = 0 } }
{
    regs.acc = Nibble::low_of(9 + regs.cy.get());
    regs.cy = Bit::ZERO;
}

/// Sets the command register to the lower three bits of the accumulator, as DCL does.
#[inline(always)]
fn designate_bank(regs: &mut Regs)
    ensures bank { regs.new ≡ record regs.old { dcl = regs.old.acc % 8 } }
    ensures in_range { regs.new.dcl < 8 }
{
    regs.dcl = regs.acc.get() % 8;
}

/// Converts one-out-of-four code to binary, as KBP does. Returns the number of the only bit that is 1, counted from 1.
/// Returns 0 if no bit is 1, and 15 if several bits are 1.
#[inline(always)]
fn active_line(lines: Nibble) -> Nibble
    ensures { result ≡ key_of lines }
{
    Nibble::low_of(match lines.get() {
        0 => 0,
        1 => 1,
        2 => 2,
        4 => 3,
        8 => 4,
        _ => 15,
    })
}

/// Adjusts the accumulator to decimal, as DAA does. The new carry is 1 exactly when 6 is added:
/// either the carry was already 1, or the accumulator plus 6 is above 15. The code has no branches,
/// because the host processor cannot predict branches that depend on the digits.
#[inline(always)]
fn decimal_adjust(regs: &mut Regs)
    ensures { regs.new ≡ after_daa regs.old }
{
    let needs_adjustment = regs.cy.get() == 1 || regs.acc.get() > 9;
    let sum = regs.acc.get() + if needs_adjustment { 6 } else { 0 };
    regs.acc = Nibble::low_of(sum);
    regs.cy = Bit::when(needs_adjustment);
}

/// Expands to the program counter after an instruction, whose name is the first argument. The result is `$next`, the
/// address after the instruction, unless the instruction is a jump, JMS or BBL. The expression is evaluated before
/// the instruction's other effects. For ISZ, it also increments the register, because the new value decides whether
/// ISZ jumps. `$a` and `$b` are the operands.
macro_rules! next_pc {
    (Jcn $regs:ident $bus:ident $next:ident $a:ident $b:ident) => {
        pc_after_jcn($regs, $a, $b, $bus.test(), $next)
    };
    (Jin $regs:ident $bus:ident $next:ident $a:ident $b:ident) => {
        address_of_word($next, $regs.pair($a))
    };
    (Jun $regs:ident $bus:ident $next:ident $a:ident $b:ident) => {
        Addr::on_page($a, $b)
    };
    (Jms $regs:ident $bus:ident $next:ident $a:ident $b:ident) => {
        Addr::on_page($a, $b)
    };
    (Isz $regs:ident $bus:ident $next:ident $a:ident $b:ident) => {
        increment_and_jump($regs, $a, $b, $next)
    };
    (Bbl $regs:ident $bus:ident $next:ident $a:ident $b:ident) => {
        $regs.ret[0]
    };
    ($name:ident $regs:ident $bus:ident $next:ident $a:ident $b:ident) => {
        $next
    };
}

/// Expands to the effect of an instruction, whose name is the first argument, on the bus and on all registers except
/// the program counter. `next_pc!` contains the effect of ISZ. `$a` and `$b` are the operands, and `$next` is the
/// address after the instruction.
macro_rules! effect {
    (Nop $regs:ident $bus:ident $next:ident $a:ident $b:ident) => {
        ()
    };
    (Jcn $regs:ident $bus:ident $next:ident $a:ident $b:ident) => {
        ()
    };
    (Fim $regs:ident $bus:ident $next:ident $a:ident $b:ident) => {
        $regs.set_pair($a, $b)
    };
    (Src $regs:ident $bus:ident $next:ident $a:ident $b:ident) => {
        $bus.src($regs.dcl, $regs.pair($a))
    };
    (Fin $regs:ident $bus:ident $next:ident $a:ident $b:ident) => {
        fetch_indirect($regs, $bus, $a, $next)
    };
    (Jin $regs:ident $bus:ident $next:ident $a:ident $b:ident) => {
        ()
    };
    (Jun $regs:ident $bus:ident $next:ident $a:ident $b:ident) => {
        ()
    };
    (Jms $regs:ident $bus:ident $next:ident $a:ident $b:ident) => {
        push($regs, $next)
    };
    (Inc $regs:ident $bus:ident $next:ident $a:ident $b:ident) => {
        increment_register($regs, $a)
    };
    (Isz $regs:ident $bus:ident $next:ident $a:ident $b:ident) => {
        ()
    };
    (Add $regs:ident $bus:ident $next:ident $a:ident $b:ident) => {
        add($regs, $regs.register($a))
    };
    (Sub $regs:ident $bus:ident $next:ident $a:ident $b:ident) => {
        subtract($regs, $regs.register($a))
    };
    (Ld $regs:ident $bus:ident $next:ident $a:ident $b:ident) => {
        $regs.acc = $regs.register($a)
    };
    (Xch $regs:ident $bus:ident $next:ident $a:ident $b:ident) => {
        {
            let old_value = $regs.register($a);
            $regs.set_register($a, $regs.acc);
            $regs.acc = old_value;
        }
    };
    (Bbl $regs:ident $bus:ident $next:ident $a:ident $b:ident) => {
        {
            pop($regs, $next);
            $regs.acc = $a;
        }
    };
    (Ldm $regs:ident $bus:ident $next:ident $a:ident $b:ident) => {
        $regs.acc = $a
    };
    (Wrm $regs:ident $bus:ident $next:ident $a:ident $b:ident) => {
        $bus.ram_write($regs.dcl, $regs.acc)
    };
    (Wmp $regs:ident $bus:ident $next:ident $a:ident $b:ident) => {
        $bus.ram_port($regs.dcl, $regs.acc)
    };
    (Wrr $regs:ident $bus:ident $next:ident $a:ident $b:ident) => {
        $bus.rom_port($regs.acc)
    };
    (Wr0 $regs:ident $bus:ident $next:ident $a:ident $b:ident) => {
        $bus.status_write($regs.dcl, 0, $regs.acc)
    };
    (Wr1 $regs:ident $bus:ident $next:ident $a:ident $b:ident) => {
        $bus.status_write($regs.dcl, 1, $regs.acc)
    };
    (Wr2 $regs:ident $bus:ident $next:ident $a:ident $b:ident) => {
        $bus.status_write($regs.dcl, 2, $regs.acc)
    };
    (Wr3 $regs:ident $bus:ident $next:ident $a:ident $b:ident) => {
        $bus.status_write($regs.dcl, 3, $regs.acc)
    };
    (Sbm $regs:ident $bus:ident $next:ident $a:ident $b:ident) => {
        subtract($regs, $bus.ram_read($regs.dcl))
    };
    (Rdm $regs:ident $bus:ident $next:ident $a:ident $b:ident) => {
        $regs.acc = $bus.ram_read($regs.dcl)
    };
    (Rdr $regs:ident $bus:ident $next:ident $a:ident $b:ident) => {
        $regs.acc = $bus.port_read()
    };
    (Adm $regs:ident $bus:ident $next:ident $a:ident $b:ident) => {
        add($regs, $bus.ram_read($regs.dcl))
    };
    (Rd0 $regs:ident $bus:ident $next:ident $a:ident $b:ident) => {
        $regs.acc = $bus.status_read($regs.dcl, 0)
    };
    (Rd1 $regs:ident $bus:ident $next:ident $a:ident $b:ident) => {
        $regs.acc = $bus.status_read($regs.dcl, 1)
    };
    (Rd2 $regs:ident $bus:ident $next:ident $a:ident $b:ident) => {
        $regs.acc = $bus.status_read($regs.dcl, 2)
    };
    (Rd3 $regs:ident $bus:ident $next:ident $a:ident $b:ident) => {
        $regs.acc = $bus.status_read($regs.dcl, 3)
    };
    (Clb $regs:ident $bus:ident $next:ident $a:ident $b:ident) => {
        {
            $regs.acc = Nibble::ZERO;
            $regs.cy = Bit::ZERO;
        }
    };
    (Clc $regs:ident $bus:ident $next:ident $a:ident $b:ident) => {
        $regs.cy = Bit::ZERO
    };
    (Iac $regs:ident $bus:ident $next:ident $a:ident $b:ident) => {
        ($regs.acc, $regs.cy) = $regs.acc.add(Nibble::ONE, Bit::ZERO)
    };
    (Cmc $regs:ident $bus:ident $next:ident $a:ident $b:ident) => {
        $regs.cy = $regs.cy.complement()
    };
    (Cma $regs:ident $bus:ident $next:ident $a:ident $b:ident) => {
        $regs.acc = $regs.acc.complement()
    };
    (Ral $regs:ident $bus:ident $next:ident $a:ident $b:ident) => {
        ($regs.acc, $regs.cy) = $regs.acc.add($regs.acc, $regs.cy)
    };
    (Rar $regs:ident $bus:ident $next:ident $a:ident $b:ident) => {
        rotate_right($regs)
    };
    (Tcc $regs:ident $bus:ident $next:ident $a:ident $b:ident) => {
        {
            $regs.acc = Nibble::low_of($regs.cy.get());
            $regs.cy = Bit::ZERO;
        }
    };
    (Dac $regs:ident $bus:ident $next:ident $a:ident $b:ident) => {
        ($regs.acc, $regs.cy) = $regs.acc.add(Nibble::MAX, Bit::ZERO)
    };
    (Tcs $regs:ident $bus:ident $next:ident $a:ident $b:ident) => {
        transfer_carry_subtract($regs)
    };
    (Stc $regs:ident $bus:ident $next:ident $a:ident $b:ident) => {
        $regs.cy = Bit::ONE
    };
    (Daa $regs:ident $bus:ident $next:ident $a:ident $b:ident) => {
        decimal_adjust($regs)
    };
    (Kbp $regs:ident $bus:ident $next:ident $a:ident $b:ident) => {
        $regs.acc = active_line($regs.acc)
    };
    (Dcl $regs:ident $bus:ident $next:ident $a:ident $b:ident) => {
        designate_bank($regs)
    };
}

/// Expands to a match that executes an instruction. The value of the match is the next program counter and the number
/// of cycles.
macro_rules! execute_rows {
    (($regs:ident, $bus:ident, $op:ident, $at:ident) $($codes:pat, $name:ident $kind:ident $words:literal $cycles:literal $group:ident $text:literal;)*) => {
        match $op {
            $(operand_pattern!(a b $name $kind) => {
                let next = $at.plus($words);
                let pc_after = next_pc!($name $regs $bus next a b);
                effect!($name $regs $bus next a b);
                (pc_after, $cycles)
            })*
        }
    };
}

/// Executes the instruction `op` at an address, but does not change the stored program counter or `owed`. Returns the
/// next program counter, and the number of cycles that the instruction takes, 1 or 2.
///
/// Each match arm does all the work of its instruction, and the program counter is passed by value. The host
/// therefore needs only one jump from a decoded opcode to the code of its instruction.
#[inline(always)]
pub fn execute<B: Bus>(regs: &mut Regs, bus: &mut B, op: Op, at: Addr) -> (Addr, u8)
    requires { regs.old.dcl < 8 }
    ensures effect { (record regs.new { pc = result.0; owed = result.1 - 1 }, B.flat bus.new)
        ≡ effect op (record regs.old { pc = at }) (B.flat bus.old) }
    ensures cycles { result.1 ≡ cycles_of op }
    ensures some { 0 < result.1 }
    ensures few { result.1 < 3 }
    ensures owed { regs.new.owed ≡ regs.old.owed }
    ensures counter { regs.new.pc ≡ regs.old.pc }
    ensures dcl { regs.new.dcl < 8 }
{
    instructions!(execute_rows!(regs, bus, op, at))
}
