//! The machine that a board's text and a program's text define.
ghost use Rattle.std.specs.Prelude.{◌≡◌, None, IfOk, IfSome};
ghost use Rattle.std.specs.List.{list_any};
ghost use Rattle.mcs_model.specs.ChipWrites.{with_rom_bytes};
ghost use Rattle.mcs_model.specs.Command.{lacks_rom, refusal_of_command};
ghost use Rattle.mcs_model.specs.declared.command.Command.TheVariants.{Load};
ghost use Rattle.mcs_model.specs.BenchState.{new_regs};
ghost use Rattle.mcs_drive.specs.TrackedMachine.{with_zero_counts};
ghost use Rattle.mcs_prove.specs.MachineOfTexts.{bench_with_board, machine_with_program};

use mcs_board::{BenchRig, every_board_fits_the_bench};
use mcs_model::board::Board;
use mcs_model::image::Image;
use std::alloc::{AllocError, Global};

/// Returns whether an image has a byte at an address where the board has no ROM.
fn lacks_rom_of_image(board: &Board, image: &Image) -> bool
    ensures { result ≡ list_any (λ p. lacks_rom board.now p.0) image.now }
{
    image
        .pairs()
        .iter()
        .any(|pair| board.mask(pair.0.page().get()).is_none())
}

/// Writes the bytes of an image into a rig's ROM.
fn load(rig: &mut BenchRig, image: &Image)
    ensures { rig.new ≡ with_rom_bytes rig.old image.now }
{
    for pair in image.pairs() {
        rig.set_rom_byte(pair.0, pair.1);
    }
}

/// Returns the rig of a new bench after `wire`, `asm` and `reset`. The bench's processor then has the state of a new
/// processor. Returns `None` if the image has a byte at an address where the board has no ROM.
pub(crate) fn rig_with_program(
    alloc: Global,
    board: &Board,
    image: &Image,
) -> Result<Option<BenchRig>, AllocError>
    ensures accepted { IfOk result (λ made. IfSome made (λ rig.
        refusal_of_command (bench_with_board board.now) (Load image.now) ≡ None)) }
    ensures is_machine { IfOk result (λ made. IfSome made (λ rig.
        with_zero_counts (new_regs, rig) ≡ machine_with_program board.now image.now)) }
{
    if lacks_rom_of_image(board, image) {
        return Ok(None);
    }
    let mut rig = BenchRig::new(alloc)?;
    every_board_fits_the_bench(board);
    rig.wire(board);
    load(&mut rig, image);
    rig.reset();
    Ok(Some(rig))
}
