//! Writes a board as TOML text.
ghost use Rattle.std.specs.Prelude.{◌≡◌, ◌<◌, ◌∷◌, [], ◌++◌, string_bytes, codes, OnOk, IfOk};
ghost use Rattle.std.specs.List.{flat_map, join_by};
ghost use Rattle.std.specs.Option.{option_map_or};
ghost use Rattle.mcs_nibble.specs.Ports.{mask_at, mask_character};
ghost use Rattle.mcs_wiring.specs.BoardText.{quoted_name, rom_lines, bank_lines, chain_lines, matrix_lines, lamp_lines, board_text};
ghost use Rattle.mcs_model.specs.TextLines.{text_of};
ghost use Rattle.mcs_wiring.specs.Flaws.{roms_text, rams_text};

use mcs_model::board::{Board, ChainPart, KeyMatrix, Line};
use mcs_model::limits::{BANKS, ROMS};
use mcs_nibble::LineMask;
use std::alloc::{AllocError, Global};

/// Returns the character for line `k` of a port: `i` for an input, `0` or `1` for an output that
/// reads as 0 or 1.
fn mask_text(masks: &[LineMask; 4], k: usize) -> &'static str
    requires { k < 4 }
    ensures { result.now ≡ mask_character (mask_at masks.now k) ∷ [] }
{
    match masks[k] {
        LineMask::Input => "i",
        LineMask::Zero => "0",
        LineMask::One => "1",
    }
}

/// Appends the name of a line in double quotes.
fn push_name(out: &mut String, line: Line) -> Result<(), AllocError>
    ensures { OnOk result (string_bytes out.new ≡ string_bytes out.old ++ quoted_name line) }
{
    match line {
        Line::Rom(chip, k) => write!(out, "\"rom{chip}.{k}\""),
        Line::Ram(bank, chip, k) => write!(out, "\"ram{bank}.{chip}.{k}\""),
        Line::Chain(n, i) => write!(out, "\"chain{n}.{i}\""),
    }
}

/// Appends the TOML table of a ROM, or nothing if the board lacks the ROM.
fn push_rom(out: &mut String, chip: u8, masks: Option<[LineMask; 4]>) -> Result<(), AllocError>
    ensures { OnOk result (string_bytes out.new
        ≡ string_bytes out.old ++ text_of (rom_lines chip masks)) }
{
    let Some(masks) = masks else {
        return Ok(());
    };
    let m3 = mask_text(&masks, 3);
    let m2 = mask_text(&masks, 2);
    let m1 = mask_text(&masks, 1);
    let m0 = mask_text(&masks, 0);
    write!(out, "[[rom]]\nchip = {chip}\nport = \"{m3}{m2}{m1}{m0}\"\n")?;
    Ok(())
}

/// Appends the TOML table of a RAM bank, or nothing if the bank has no chips.
fn push_ram(out: &mut String, bank: u8, chips: u8) -> Result<(), AllocError>
    ensures { OnOk result (string_bytes out.new
        ≡ string_bytes out.old ++ text_of (bank_lines bank chips)) }
{
    if chips == 0 {
        return Ok(());
    }
    write!(out, "[[ram]]\nbank = {bank}\nchips = {chips}\n")
}

/// Appends the TOML table of a chain.
fn push_chain(out: &mut String, chain: &ChainPart) -> Result<(), AllocError>
    ensures { OnOk result (string_bytes out.new
        ≡ string_bytes out.old ++ text_of (chain_lines chain.now)) }
{
    out.push_str("[[chain]]\nclock = ")?;
    push_name(out, chain.clock)?;
    out.push_str("\ndata = ")?;
    push_name(out, chain.data_in)?;
    let chips = chain.chips;
    write!(out, "\nchips = {chips}\n")?;
    Ok(())
}

/// Appends the quoted names of the columns' lines, separated by `, `.
fn push_names(out: &mut String, lines: &[Line]) -> Result<(), AllocError>
    ensures { OnOk result (string_bytes out.new
        ≡ string_bytes out.old ++ join_by quoted_name (codes ", ") lines.now) }
{
    let [first, rest @ ..] = lines else {
        return Ok(());
    };
    push_name(out, *first)?;
    for line in rest {
        out.push_str(", ")?;
        push_name(out, *line)?;
    }
    Ok(())
}

/// Appends the TOML table of a key matrix.
fn push_matrix(out: &mut String, keys: &KeyMatrix) -> Result<(), AllocError>
    ensures { OnOk result (string_bytes out.new
        ≡ string_bytes out.old ++ text_of (matrix_lines keys.now)) }
{
    let (chain, first, rows) = (keys.chain, keys.first, keys.rows);
    write!(
        out,
        "[keys]\nchain = {chain}\nfirst = {first}\nrows = {rows}\ncolumns = ["
    )?;
    push_names(out, keys.columns.as_slice())?;
    out.push_str("]\n")?;
    Ok(())
}

/// Appends the TOML table of a lamp.
fn push_lamp(out: &mut String, line: Line) -> Result<(), AllocError>
    ensures { OnOk result (string_bytes out.new
        ≡ string_bytes out.old ++ text_of (lamp_lines line)) }
{
    out.push_str("[[lamp]]\nline = ")?;
    push_name(out, line)?;
    out.push_str("\n")?;
    Ok(())
}

/// Appends the TOML tables of a board's ROMs, in ascending order of chip number.
fn push_roms(out: &mut String, board: &Board) -> Result<(), AllocError>
    ensures { OnOk result (string_bytes out.new
        ≡ string_bytes out.old ++ roms_text board.now ROMS) }
{
    for chip in 0..ROMS {
        push_rom(out, chip as u8, board.mask(chip as u8))?;
    }
    Ok(())
}

/// Appends the TOML tables of a board's RAM banks, in ascending order of bank number.
fn push_rams(out: &mut String, board: &Board) -> Result<(), AllocError>
    ensures { OnOk result (string_bytes out.new
        ≡ string_bytes out.old ++ rams_text board.now BANKS) }
{
    for bank in 0..BANKS {
        push_ram(out, bank as u8, board.bank_chips(bank as u8))?;
    }
    Ok(())
}

/// Appends the TOML tables of the chains, in order.
fn push_chains(out: &mut String, chains: &[ChainPart]) -> Result<(), AllocError>
    ensures { OnOk result (string_bytes out.new
        ≡ string_bytes out.old ++ flat_map (λ c. text_of (chain_lines c)) chains.now) }
{
    for chain in chains {
        push_chain(out, chain)?;
    }
    Ok(())
}

/// Appends the TOML table of the key matrix, or nothing if the board has no key matrix.
fn push_keys(out: &mut String, keys: &Option<KeyMatrix>) -> Result<(), AllocError>
    ensures { OnOk result (string_bytes out.new
        ≡ string_bytes out.old ++ text_of (option_map_or matrix_lines keys.now [])) }
{
    match keys {
        Some(keys) => push_matrix(out, keys),
        None => Ok(()),
    }
}

/// Appends the TOML tables of the lamps, in order.
fn push_lamps(out: &mut String, lamps: &[Line]) -> Result<(), AllocError>
    ensures { OnOk result (string_bytes out.new
        ≡ string_bytes out.old ++ flat_map (λ l. text_of (lamp_lines l)) lamps.now) }
{
    for line in lamps {
        push_lamp(out, *line)?;
    }
    Ok(())
}

/// Returns the TOML text of a board: the ROMs and RAM banks in ascending order, then the chains,
/// the key matrix and the lamps. Each line ends with LF. Fails if allocation fails.
pub fn board_text(alloc: Global, board: &Board) -> Result<String, AllocError>
    ensures { IfOk result (λ s. string_bytes s ≡ board_text board.now) }
{
    let mut out = String::new(alloc);
    push_roms(&mut out, board)?;
    push_rams(&mut out, board)?;
    let parts = board.parts();
    push_chains(&mut out, parts.chains.as_slice())?;
    push_keys(&mut out, &parts.keys)?;
    push_lamps(&mut out, parts.lamps.as_slice())?;
    Ok(out)
}
