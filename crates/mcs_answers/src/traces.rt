//! The answer to `trace`. A row is the text of the values of all probes, each after a space.
ghost use Rattle.std.specs.Prelude.{◌≡◌, ◌⊎◌, ℕ, ◌+◌, ◌*◌, ◌<◌, ◌≤◌, ◌++◌, ◌↔◌, [], codes, length, map, true, IfOk};
ghost use Rattle.std.specs.Fmt.{decimal};
ghost use Rattle.arrayvec.specs.ArrayVec.{array_vec_len};
ghost use Rattle.mcs_model.specs.Command.{machine_of};
ghost use Rattle.mcs_model.specs.QueryText.{address_text, comma_list};
ghost use Rattle.mcs_model.specs.TextLines.{as_line};
ghost use Rattle.mcs_bench.specs.Runs.{stop_reason};
ghost use Rattle.mcs_probe.specs.Probes.{probe_text, row};
ghost use Rattle.mcs_answers.specs.ForecastTexts.{is_reported, trace_answer};
ghost use Rattle.mcs_answers.specs.UnchangedProbes.{StaysSame, RowAlwaysStaysSame, RowStaysSame, CoversProbes, IncludesProbeKind, WritesPort, WritesStatus, touches};
ghost use Rattle.mcs_answers.specs.TraceResult.{IsTraceOfRun, cycle_lines, line_if_reported};
ghost use Rattle.mcs_model.specs.declared.op.Op.TheVariants.{Src, Wrm};
ghost use Rattle.mcs_model.specs.declared.regs.Regs.{Regs};
ghost use Rattle.std.specs.List.{flat_map};

use crate::digits::{put, put_address, put_byte, put_digit};
use crate::forecast::put_head;
use crate::lists::put_lamp_marks;
use crate::numbers::put_word_and_number;
use crate::port_levels::{ram_levels, rom_levels};
use crate::size::{ANSWER_BYTES, PROBE_BYTES};
use crate::state_lists::put_chain_bits;
use crate::unchanged_rows::is_current_row;
use arrayvec::ArrayVec;
use mcs_bench::Bench;
use mcs_model::op::Op;
use mcs_model::regs::Regs;
use mcs_model::stop::Stop;
use mcs_nibble::Addr;
use mcs_probe::{MAX_PROBES, Probe};
use std::alloc::{AllocError, Global};

/// Appends a space and the three return addresses, separated by commas.
fn put_return_addresses(answer: &mut ArrayVec<u8, ANSWER_BYTES>, ret: [Addr; 3])
    requires { array_vec_len answer.old + 12 ≤ ANSWER_BYTES }
    ensures text { answer.new.items
        ≡ answer.old.items ++ codes " " ++ comma_list (map address_text ret) }
    ensures count { length answer.new.items ≡ length answer.old.items + 12 }
{
    let [first, second, third] = ret;
    put_address(answer, b" ", first);
    put_address(answer, b",", second);
    put_address(answer, b",", third);
}

/// Appends a space and the value of a probe.
fn put_probe(answer: &mut ArrayVec<u8, ANSWER_BYTES>, probe: Probe, bench: &Bench)
    requires { array_vec_len answer.old + PROBE_BYTES ≤ ANSWER_BYTES }
    ensures text { answer.new.items
        ≡ answer.old.items ++ (codes " " ++ probe_text (machine_of bench.now) probe) }
    ensures count { length answer.new.items ≤ length answer.old.items + PROBE_BYTES }
{
    let regs = bench.regs();
    match probe {
        Probe::Acc => put_digit(answer, b" ", regs.acc.get()),
        Probe::Cy => put_digit(answer, b" ", regs.cy.get()),
        Probe::Pc => put_address(answer, b" ", regs.pc),
        Probe::Register(k) => put_digit(answer, b" ", regs.register(k).get()),
        Probe::Dcl => put_digit(answer, b" ", regs.dcl),
        Probe::Rom(at) => put_byte(answer, b" ", bench.rom_byte(at)),
        Probe::Ram(bank, src) => put_digit(answer, b" ", bench.ram(bank.get(), src).get()),
        Probe::Status(bank, high, k) => {
            put_digit(answer, b" ", bench.status(bank.get(), high, k.get()).get());
        }
        Probe::Level(line) => put_digit(answer, b" ", bench.level(line).get()),
        Probe::RomPort(chip) => put_digit(answer, b" ", rom_levels(bench, chip)),
        Probe::RamPort(bank, chip) => put_digit(answer, b" ", ram_levels(bench, bank, chip)),
        Probe::Chain(n) => {
            put(answer, b" ");
            put_chain_bits(answer, bench, n);
        }
        Probe::Src => put_byte(answer, b" ", bench.rom_src()),
        Probe::Lamps => {
            put(answer, b" ");
            put_lamp_marks(answer, bench);
        }
        Probe::ReturnAddresses => put_return_addresses(answer, regs.ret),
    }
}

/// Appends the values of the probes in order, each after a space.
fn put_row(answer: &mut ArrayVec<u8, ANSWER_BYTES>, probes: &[Probe], bench: &Bench)
    requires { array_vec_len answer.old + PROBE_BYTES * length probes.now ≤ ANSWER_BYTES }
    ensures text { answer.new.items ≡ answer.old.items ++ row probes.now (machine_of bench.now) }
    ensures count { length answer.new.items
        ≤ length answer.old.items + PROBE_BYTES * length probes.now }
{
    for probe in probes {
        put_probe(answer, *probe, bench);
    }
}

/// Appends the trace line of an instruction: the number of cycles executed before it, its address, and the row
/// after it. Uses `start` as a scratch buffer.
fn add_line(
    text: &mut Vec<u8>,
    start: &mut ArrayVec<u8, ANSWER_BYTES>,
    cycles: u32,
    at: Addr,
    row: &[u8],
) -> Result<(), AllocError>
    ensures { IfOk result (λ _. text.new.items
        ≡ text.old.items ++ as_line (decimal cycles ++ codes " " ++ address_text at ++ row.now)) }
{
    start.clear();
    put_word_and_number(start, b"", u64::from(cycles));
    put_address(start, b" ", at);
    text.extend_from_slice(start.as_slice())?;
    text.extend_from_slice(row)?;
    text.extend_from_slice(b"\n")
}

/// Returns true if an instruction is WMP or WRR. Only these instructions change the levels of lines.
fn writes_port(op: &Op) -> bool
    ensures { result ≡ true ↔ WritesPort op.now }
{
    matches!(op, Op::Wmp | Op::Wrr)
}

/// Returns true if an instruction is WRM. Only this instruction changes RAM nibbles.
fn writes_ram(op: &Op) -> bool
    ensures { result ≡ true ↔ op.now ≡ Wrm }
{
    matches!(op, Op::Wrm)
}

/// Returns true if an instruction is WR0, WR1, WR2 or WR3. Only these instructions change status characters.
fn writes_status(op: &Op) -> bool
    ensures { result ≡ true ↔ WritesStatus op.now }
{
    matches!(op, Op::Wr0 | Op::Wr1 | Op::Wr2 | Op::Wr3)
}

/// Returns true if an instruction is SRC. Only this instruction changes the SRC byte latched in the ROMs.
fn writes_src(op: &Op) -> bool
    ensures { (k : ℕ) → op.now ≡ Src k → result ≡ true }
{
    matches!(op, Op::Src(_))
}

/// Returns true only if a probe is outside the processor and an instruction cannot change the
/// probe's value.
#[inline(always)]
fn outside_probe_stays_same(probe: Probe, op: &Op) -> bool
    ensures { result ≡ true → (before after : Regs) → StaysSame op.now before after probe }
{
    match probe {
        Probe::Rom(_) => true,
        Probe::Ram(_, _) => !writes_ram(op),
        Probe::Status(_, _, _) => !writes_status(op),
        Probe::Level(_) => !writes_port(op),
        Probe::RomPort(_) => !writes_port(op),
        Probe::RamPort(_, _) => !writes_port(op),
        Probe::Chain(_) => !writes_port(op),
        Probe::Src => !writes_src(op),
        Probe::Lamps => !writes_port(op),
        _ => false,
    }
}

/// The kinds of probes in a row. Each field is true if the row has a probe of that kind. ROM bytes
/// have no field, because no instruction changes them.
#[derive(Clone, Copy)]
struct ProbeKinds {
    /// Lines, ports, chains or lamps, which WMP and WRR can change.
    ports: bool,
    /// RAM nibbles, which WRM can change.
    ram: bool,
    /// Status characters, which WR0 to WR3 can change.
    status: bool,
    /// The SRC byte latched in the ROMs, which SRC can change.
    src: bool,
    /// The return addresses, which JMS and BBL can change.
    return_addresses: bool,
    /// Any other register. Every instruction counts as changing it.
    registers: bool,
}

/// Returns true if an instruction can change the return addresses or a location outside the registers, and
/// the row has a probe of that kind.
#[inline(always)]
fn touches(probe_kinds: &ProbeKinds, op: &Op) -> bool
    ensures { result ≡ touches probe_kinds.now op.now }
{
    match op {
        Op::Wmp | Op::Wrr => probe_kinds.ports,
        Op::Wrm => probe_kinds.ram,
        Op::Wr0 | Op::Wr1 | Op::Wr2 | Op::Wr3 => probe_kinds.status,
        Op::Src(_) => probe_kinds.src,
        Op::Jms(_, _) | Op::Bbl(_) => probe_kinds.return_addresses,
        _ => false,
    }
}

/// Returns the kinds of probes in a row after a probe is added to the row.
fn with_probe_kind(probe_kinds: ProbeKinds, probe: Probe) -> ProbeKinds
    ensures { IncludesProbeKind probe_kinds result probe }
{
    match probe {
        Probe::Rom(_) => probe_kinds,
        Probe::Ram(_, _) => ProbeKinds {
            ram: true,
            ..probe_kinds
        },
        Probe::Status(_, _, _) => ProbeKinds {
            status: true,
            ..probe_kinds
        },
        Probe::Level(_) => ProbeKinds {
            ports: true,
            ..probe_kinds
        },
        Probe::RomPort(_) => ProbeKinds {
            ports: true,
            ..probe_kinds
        },
        Probe::RamPort(_, _) => ProbeKinds {
            ports: true,
            ..probe_kinds
        },
        Probe::Chain(_) => ProbeKinds {
            ports: true,
            ..probe_kinds
        },
        Probe::Src => ProbeKinds {
            src: true,
            ..probe_kinds
        },
        Probe::Lamps => ProbeKinds {
            ports: true,
            ..probe_kinds
        },
        Probe::ReturnAddresses => ProbeKinds {
            return_addresses: true,
            ..probe_kinds
        },
        _ => ProbeKinds {
            registers: true,
            ..probe_kinds
        },
    }
}

/// Returns the kinds of probes in a row.
fn kinds_of_probes(probes: &[Probe]) -> ProbeKinds
    ensures { CoversProbes result probes.now }
{
    let mut probe_kinds = ProbeKinds {
        ports: false,
        ram: false,
        status: false,
        src: false,
        return_addresses: false,
        registers: false,
    };
    for probe in probes {
        probe_kinds = with_probe_kind(probe_kinds, *probe);
    }
    probe_kinds
}

/// Returns true only if the kinds of probes in the row show that an instruction cannot change the row, for
/// any values of the registers. Returns false if no instruction was begun.
#[inline(always)]
fn row_stays_same_by_kinds(probes: &[Probe], probe_kinds: &ProbeKinds, op: Option<Op>) -> bool
    requires { CoversProbes probe_kinds.now probes.now }
    ensures { result ≡ true → RowAlwaysStaysSame op probes.now }
{
    match op {
        None => false,
        Some(op) => {
            if probe_kinds.registers {
                return false;
            }
            !touches(probe_kinds, &op)
        }
    }
}

/// Returns true only if an instruction leaves the value of a probe unchanged. `before` and `after` are the
/// registers before and after the instruction. The function builds no text.
fn probe_stays_same(probe: Probe, op: &Op, before: &Regs, after: &Regs) -> bool
    ensures { result ≡ true → StaysSame op.now before.now after.now probe }
{
    match probe {
        Probe::Acc => before.acc == after.acc,
        Probe::Cy => before.cy == after.cy,
        Probe::Pc => before.pc == after.pc,
        Probe::Register(k) => before.register(k) == after.register(k),
        Probe::Dcl => before.dcl == after.dcl,
        Probe::ReturnAddresses => before.ret == after.ret,
        _ => outside_probe_stays_same(probe, op),
    }
}

/// Returns true only if an instruction leaves the values of all probes unchanged. `before` and `after` are
/// the registers before and after the instruction. Returns false if no instruction was begun.
fn row_stays_same_by_values(probes: &[Probe], op: Option<Op>, before: &Regs, after: &Regs) -> bool
    ensures { result ≡ true → RowStaysSame op before.now after.now probes.now }
{
    match op {
        None => false,
        Some(op) => {
            for probe in probes {
                if !probe_stays_same(*probe, &op, before, after) {
                    return false;
                }
            }
            true
        }
    }
}

/// Returns true only if an instruction leaves the row unchanged. `before` and `after` are the registers
/// before and after the instruction. If `REGISTERS` is false, the function does not compare these registers.
#[inline(always)]
fn row_stays_same<const REGISTERS: bool>(
    probes: &[Probe],
    probe_kinds: &ProbeKinds,
    op: Option<Op>,
    before: &Regs,
    after: &Regs,
) -> bool
    requires { CoversProbes probe_kinds.now probes.now }
    ensures { result ≡ true → RowStaysSame op before.now after.now probes.now ⊎ RowAlwaysStaysSame op probes.now }
{
    if REGISTERS {
        row_stays_same_by_values(probes, op, before, after)
    } else {
        row_stays_same_by_kinds(probes, probe_kinds, op)
    }
}

/// The result of a traced run: the number of cycles, the reason why the run stopped, and the number of
/// trace lines.
#[derive(Drop)]
struct TraceResult {
    cycles: u32,
    stop: Stop,
    lines: u32,
}

/// Returns the result of a traced run. `bench` is the bench after the run, and `mark` is the breakpoint or
/// watch that stopped the run, if any.
fn trace_result(bench: &Bench, cycles: u32, mark: Option<Stop>, lines: u32) -> TraceResult
    ensures cycles { result.cycles ≡ cycles }
    ensures stop { result.stop ≡ stop_reason (machine_of bench.now) mark }
    ensures lines { result.lines ≡ lines }
{
    TraceResult {
        cycles,
        stop: bench.stop_reason(mark),
        lines,
    }
}

/// The row after the last cycle, and a buffer for the next row.
#[derive(Drop)]
struct Rows {
    last: ArrayVec<u8, ANSWER_BYTES>,
    next: ArrayVec<u8, ANSWER_BYTES>,
}

/// Returns the row of a bench before a run, with an empty buffer for the next row.
fn first_row(probes: &[Probe], bench: &Bench) -> Rows
    requires { length probes.now ≤ MAX_PROBES }
    ensures { result.last.items ≡ row probes.now (machine_of bench.now) }
{
    let mut last = ArrayVec::new();
    put_row(&mut last, probes, bench);
    Rows {
        last,
        next: ArrayVec::new(),
    }
}

/// Appends the trace line of an instruction if the row has changed or if there are no probes.
/// Returns true if it appended a line. `rows.last` becomes the row after the instruction. Fails if
/// allocation fails.
fn add_line_if_reported(
    text: &mut Vec<u8>,
    rows: &mut Rows,
    cycles: u32,
    at: Addr,
    probes: &[Probe],
    bench: &Bench,
) -> Result<bool, AllocError>
    requires { length probes.now ≤ MAX_PROBES }
    ensures row { IfOk result (λ _. rows.new.last.items ≡ row probes.now (machine_of bench.now)) }
    ensures report { IfOk result (λ report. report
        ≡ is_reported probes.now rows.old.last.items (row probes.now (machine_of bench.now))) }
    ensures text { IfOk result (λ report. text.new.items ≡ text.old.items ++ flat_map as_line
        (line_if_reported report cycles at (row probes.now (machine_of bench.now)))) }
{
    rows.next.clear();
    put_row(&mut rows.next, probes, bench);
    if probes.is_empty() || rows.next.as_slice() != rows.last.as_slice() {
        add_line(text, &mut rows.last, cycles, at, rows.next.as_slice())?;
        rows.last.clear();
        put(&mut rows.last, rows.next.as_slice());
        return Ok(true);
    }
    Ok(false)
}

/// Appends the trace line of a cycle that began at address `at`, if the cycle has one. Returns the number of
/// lines appended (0 or 1). A pending second cycle (`owed` is not 0) has no line. `rows.last` becomes the
/// row after the cycle. Fails if allocation fails. This function is not inlined because a row is rarely
/// built.
#[inline(never)]
fn add_cycle_line(
    text: &mut Vec<u8>,
    rows: &mut Rows,
    cycles: u32,
    owed: u8,
    at: Addr,
    probes: &[Probe],
    bench: &Bench,
) -> Result<u32, AllocError>
    requires { length probes.now ≤ MAX_PROBES }
    ensures row { IfOk result (λ _. rows.new.last.items ≡ row probes.now (machine_of bench.now)) }
    ensures lines { IfOk result (λ lines. lines ≡ length (cycle_lines probes.now owed cycles
        at rows.old.last.items (row probes.now (machine_of bench.now)))) }
    ensures text { IfOk result (λ _. text.new.items ≡ text.old.items ++ flat_map as_line
        (cycle_lines probes.now owed cycles at rows.old.last.items
        (row probes.now (machine_of bench.now)))) }
{
    if !probes.is_empty() && is_current_row(rows.last.as_slice(), probes, bench) {
        return Ok(0);
    }
    if owed != 0 {
        rows.last.clear();
        put_row(&mut rows.last, probes, bench);
        return Ok(0);
    }
    if add_line_if_reported(text, rows, cycles, at, probes, bench)? {
        return Ok(1);
    }
    Ok(0)
}

/// Appends the trace line of an instruction, if it has one, and returns the number of lines appended (0 or
/// 1). `regs` are the registers before the instruction. `is_row_unchanged` must be false if the instruction changed the
/// row. `rows.last` becomes the row after the instruction. Fails if allocation fails.
#[inline(always)]
fn add_instruction_line(
    text: &mut Vec<u8>,
    rows: &mut Rows,
    cycles: u32,
    regs: &Regs,
    is_row_unchanged: bool,
    probes: &[Probe],
    bench: &Bench,
) -> Result<u32, AllocError>
    requires room { length probes.now ≤ MAX_PROBES }
    requires same { is_row_unchanged ≡ true → rows.old.last.items ≡ row probes.now (machine_of bench.now) }
    ensures row { IfOk result (λ _. rows.new.last.items ≡ row probes.now (machine_of bench.now)) }
    ensures lines { IfOk result (λ lines. lines ≡ length (cycle_lines probes.now regs.now.owed cycles
        regs.now.pc rows.old.last.items (row probes.now (machine_of bench.now)))) }
    ensures text { IfOk result (λ _. text.new.items ≡ text.old.items ++ flat_map as_line
        (cycle_lines probes.now regs.now.owed cycles regs.now.pc rows.old.last.items
        (row probes.now (machine_of bench.now)))) }
{
    if is_row_unchanged && !probes.is_empty() {
        return Ok(0);
    }
    add_cycle_line(text, rows, cycles, regs.owed, regs.pc, probes, bench)
}

/// Appends the trace lines of a run of at most `n` cycles. An instruction has a line if it changes the row,
/// or if there are no probes. If `REGISTERS` is true, the loop compares registers to find unchanged rows.
fn add_lines<const REGISTERS: bool>(
    alloc: Global,
    text: &mut Vec<u8>,
    n: u32,
    probes: &[Probe],
    probe_kinds: &ProbeKinds,
    bench: &Bench,
) -> Result<TraceResult, AllocError>
    requires empty { text.old.items ≡ [] }
    requires room { length probes.now ≤ MAX_PROBES }
    requires probe_kinds { CoversProbes probe_kinds.now probes.now }
    ensures { IfOk result (λ traced. IsTraceOfRun probes.now n bench.now traced text.new.items) }
{
    let mut rows = first_row(probes, bench);
    let mut lines = 0u32;
    let mut copy = bench.copy(alloc)?;
    let mut elapsed = 0;
    while elapsed < n {
        let regs = copy.regs();
        match copy.continue_run(n - elapsed) {
            None => return Ok(trace_result(&copy, elapsed, None, lines)),
            Some(executed) => {
                let is_row_unchanged = row_stays_same::<REGISTERS>(
                    probes,
                    probe_kinds,
                    executed.op,
                    &regs,
                    &copy.regs(),
                );
                lines += add_instruction_line(
                    text,
                    &mut rows,
                    elapsed,
                    &regs,
                    is_row_unchanged,
                    probes,
                    &copy,
                )?;
                elapsed += executed.cycles;
                if let Some(why) = executed.mark {
                    return Ok(trace_result(&copy, elapsed, Some(why), lines));
                }
            }
        }
    }
    Ok(trace_result(&copy, n, None, lines))
}

/// Calls `add_lines` and returns its result. Sets `REGISTERS` to true only if a probe is a register
/// other than the return addresses.
fn add_lines_for_probes(
    alloc: Global,
    text: &mut Vec<u8>,
    n: u32,
    probes: &[Probe],
    bench: &Bench,
) -> Result<TraceResult, AllocError>
    requires empty { text.old.items ≡ [] }
    requires room { length probes.now ≤ MAX_PROBES }
    ensures { IfOk result (λ traced. IsTraceOfRun probes.now n bench.now traced text.new.items) }
{
    let probe_kinds = kinds_of_probes(probes);
    if probe_kinds.registers {
        add_lines::<true>(alloc, text, n, probes, &probe_kinds, bench)
    } else {
        add_lines::<false>(alloc, text, n, probes, &probe_kinds, bench)
    }
}

/// Traces a run of at most `n` cycles on a copy of the bench, and returns the trace lines in allocated
/// memory. Writes the first line of the answer into the empty buffer `head`. An instruction has a line if it
/// changes the row, or if there are no probes. Fails if allocation fails; the contents of `head` are then
/// unspecified.
pub fn put_trace(
    alloc: Global,
    head: &mut ArrayVec<u8, ANSWER_BYTES>,
    n: u32,
    probes: &[Probe],
    bench: &Bench,
) -> Result<Vec<u8>, AllocError>
    requires empty { head.old.items ≡ [] }
    requires room { length probes.now ≤ MAX_PROBES }
    ensures { IfOk result (λ lines. head.new.items ++ lines.items
        ≡ trace_answer probes.now n bench.now) }
{
    let mut text = Vec::new(alloc);
    let traced = add_lines_for_probes(alloc, &mut text, n, probes, bench)?;
    put_head(head, b"trace", traced.cycles, traced.stop, traced.lines);
    put_row(head, probes, bench);
    put(head, b"\n");
    Ok(text)
}
