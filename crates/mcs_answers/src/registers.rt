//! The answer to `regs`.
ghost use Rattle.std.specs.Prelude.{◌≡◌, ◌+◌, ◌++◌, ◌≤◌, [], length};
ghost use Rattle.arrayvec.specs.ArrayVec.{array_vec_len};
ghost use Rattle.mcs_model.specs.QueryText.{registers_text, regs_text};
ghost use Rattle.mcs_model.specs.TextLines.{as_line};

use crate::digits::{put, put_address, put_digit, put_digits};
use crate::size::{ANSWER_BYTES, REGISTER_BYTES};
use arrayvec::ArrayVec;
use mcs_bench::Bench;

/// Appends the TEST level and the registers except the return addresses.
pub(crate) fn put_registers(answer: &mut ArrayVec<u8, ANSWER_BYTES>, bench: &Bench)
    requires { array_vec_len answer.old + REGISTER_BYTES ≤ ANSWER_BYTES }
    ensures text { answer.new.items
        ≡ answer.old.items ++ registers_text bench.now.processor bench.now.bus.test }
    ensures count { length answer.new.items ≡ length answer.old.items + REGISTER_BYTES }
{
    let regs = bench.regs();
    put_digit(answer, b"acc ", regs.acc.get());
    put_digit(answer, b" cy ", regs.cy.get());
    put_address(answer, b" pc ", regs.pc);
    put_digit(answer, b" owed ", regs.owed);
    put_digit(answer, b" dcl ", regs.dcl);
    put_digit(answer, b" test ", bench.test().get());
    put(answer, b" r ");
    put_digits(answer, &regs.r);
}

/// Writes the answer to `regs` into an empty buffer: the registers and the TEST level.
pub fn put_regs(answer: &mut ArrayVec<u8, ANSWER_BYTES>, bench: &Bench)
    requires { answer.old.items ≡ [] }
    ensures { answer.new.items ≡ as_line (regs_text bench.now.processor bench.now.bus.test) }
{
    let ret = bench.regs().ret;
    put_registers(answer, bench);
    put_address(answer, b" ret ", ret[0]);
    put_address(answer, b" ", ret[1]);
    put_address(answer, b" ", ret[2]);
    put(answer, b"\n");
}
