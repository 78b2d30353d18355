//! The levels of a port's four I/O lines, combined into a nibble.
ghost use Rattle.std.specs.Prelude.{◌≡◌, ◌<◌};
ghost use Rattle.mcs_model.specs.declared.board.Line.TheVariants as line;
ghost use Rattle.mcs_probe.specs.Probes.{levels_of_four_lines};

use mcs_bench::Bench;
use mcs_model::board::Line;

/// Returns the levels of the four I/O lines of a ROM's port as a nibble. Line 0 is the lowest bit.
pub(crate) fn rom_levels(bench: &Bench, chip: u8) -> u8
    ensures value { result ≡ levels_of_four_lines bench.now.bus (line.Rom chip) }
    ensures digit { result < 16 }
{
    bench.level(Line::Rom(chip, 0)).get()
        + 2 * bench.level(Line::Rom(chip, 1)).get()
        + 4 * bench.level(Line::Rom(chip, 2)).get()
        + 8 * bench.level(Line::Rom(chip, 3)).get()
}

/// Returns the levels of the four output lines of a RAM chip's port as a nibble. Line 0 is the
/// lowest bit.
pub(crate) fn ram_levels(bench: &Bench, bank: u8, chip: u8) -> u8
    ensures value { result ≡ levels_of_four_lines bench.now.bus (line.Ram bank chip) }
    ensures digit { result < 16 }
{
    bench.level(Line::Ram(bank, chip, 0)).get()
        + 2 * bench.level(Line::Ram(bank, chip, 1)).get()
        + 4 * bench.level(Line::Ram(bank, chip, 2)).get()
        + 8 * bench.level(Line::Ram(bank, chip, 3)).get()
}
