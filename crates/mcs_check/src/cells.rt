//! The cells of a machine, and a board's layout. The layout lists the bytes of the state vector. Together these bytes
//! hold every cell of a machine with this board.
ghost use Rattle.std.specs.Prelude.{◌≡◌, ◌<◌, ◌+◌, ◌*◌, ◌%◌, ◌||◌, true, false, IfOk, OnOk};
ghost use Rattle.mcs_check.specs.Cells.{max_cell_count, first_cell_of, is_narrow, board_has_cell, second_cell_of, ContainsBytesOf, ContainsCellsOf, IsComplete};

use mcs_model::board::{Board, Line};
use mcs_model::limits::CHAINS;
use std::alloc::{AllocError, Global};

/// A list of cells of one kind.
#[derive(Clone, Copy, Debug)]
pub enum CellList {
    /// The nibbles of RAM (Intel's "RAM characters"), indexed by bank * 256 + SRC byte.
    RamNibbles,
    /// The status characters, indexed by (bank * 16 + upper nibble of the SRC byte) * 4 + number of the character (0
    /// to 3).
    StatusCharacters,
    /// The port latches of the RAM chips, indexed by bank * 4 + chip.
    RamPorts,
    /// The port latches of the ROMs, indexed by chip.
    RomPorts,
    /// The SRC byte that each RAM bank stores, indexed by bank.
    BankSrcBytes,
    /// The index registers.
    Registers,
    /// The registers other than the index registers, the SRC byte that the ROMs store, and the counts. The counts are
    /// the number of open calls, the stopwatch's cycles, and the number of marks seen. An address has two bytes and the
    /// cycles have three, most significant byte first.
    Counters,
    /// The bits of the shift-register chain with this number.
    Chain(u8),
}

/// A cell of a machine, given by its list and its index in that list.
#[derive(Clone, Copy, Debug)]
pub struct Cell {
    pub list: CellList,
    pub index: u16,
}

impl Default for Cell {
    fn default() -> Cell {
        Cell {
            list: CellList::Counters,
            index: 0,
        }
    }
}

impl CellList {
    /// Returns the maximum number of cells in the list.
    pub fn count(self) -> u16
        ensures { result ≡ max_cell_count self }
    {
        match self {
            CellList::RamNibbles => 2048,
            CellList::StatusCharacters => 512,
            CellList::RamPorts => 32,
            CellList::RomPorts => 16,
            CellList::BankSrcBytes => 8,
            CellList::Registers => 16,
            CellList::Counters => 18,
            CellList::Chain(_) => 256,
        }
    }

    /// Returns whether each cell of the list has a value below 16.
    fn is_narrow(self) -> bool
        ensures { result ≡ is_narrow self }
    {
        match self {
            CellList::BankSrcBytes | CellList::Counters => false,
            _ => true,
        }
    }
}

/// A byte of the state vector: the cell or the two cells whose values it holds.
#[derive(Clone, Copy, Debug)]
pub enum StateByte {
    /// The value of a cell.
    One(Cell),
    /// The values of two neighbouring cells, each below 16. The fields are the list of the two cells and the number of
    /// their pair, counted from 0. The first cell is the upper nibble.
    Pair(CellList, u16),
}

impl Default for StateByte {
    fn default() -> StateByte {
        StateByte::One(Cell::default())
    }
}

/// Returns the first cell of pair `pair` in a list, with `pair` reduced modulo 1024.
pub(crate) fn first_cell_of(list: CellList, pair: u16) -> Cell
    ensures { result ≡ first_cell_of list pair }
{
    Cell {
        list,
        index: 2 * (pair % 1024),
    }
}

/// Returns the second cell of pair `pair` in a list, with `pair` reduced modulo 1024.
pub(crate) fn second_cell_of(list: CellList, pair: u16) -> Cell
    ensures { result ≡ second_cell_of list pair }
{
    Cell {
        list,
        index: 2 * (pair % 1024) + 1,
    }
}

impl Cell {
    /// Returns the cell's index, reduced modulo the maximum number of cells in its list.
    pub(crate) fn reduced_index(self) -> u16
        ensures { result ≡ self.index % max_cell_count self.list }
    {
        self.index % self.list.count()
    }
}

/// Returns whether a board has the chip that contains cell `i` of a list. Every board has the processor.
fn board_has_cell(board: &Board, list: CellList, i: u16) -> bool
    requires { i < max_cell_count list }
    ensures { result ≡ board_has_cell board.now list i }
{
    match list {
        CellList::RamNibbles => ((i % 256 / 64) as u8) < board.bank_chips((i / 256) as u8),
        CellList::StatusCharacters => ((i % 64 / 16) as u8) < board.bank_chips((i / 64) as u8),
        CellList::RamPorts => ((i % 4) as u8) < board.bank_chips((i / 4) as u8),
        CellList::RomPorts => board.mask(i as u8).is_some(),
        CellList::BankSrcBytes => 0 < board.bank_chips(i as u8),
        CellList::Registers | CellList::Counters => true,
        CellList::Chain(n) => board.has_line(Line::Chain(n, i as u8)),
    }
}

/// Returns whether at least one of the two cells of a pair exists on a board.
fn board_has_pair(board: &Board, list: CellList, pair: u16) -> bool
    requires { 2 * pair + 1 < max_cell_count list }
    ensures { result ≡ (board_has_cell board.now list (2 * pair) || board_has_cell board.now list (2 * pair + 1)) }
{
    board_has_cell(board, list, 2 * pair) || board_has_cell(board, list, 2 * pair + 1)
}

/// Appends to the layout those cells of a list that exist on the board, one cell per byte. Fails if memory runs out.
fn add_cells(layout: &mut Vec<StateByte>, board: &Board, list: CellList) -> Result<(), AllocError>
    requires { is_narrow list ≡ false }
    ensures keeps { OnOk result (ContainsBytesOf layout.old.items layout.new.items) }
    ensures has { OnOk result (ContainsCellsOf board.now layout.new.items list) }
{
    for index in 0..list.count() {
        if board_has_cell(board, list, index) {
            layout.push(StateByte::One(Cell { list, index }))?;
        }
    }
    Ok(())
}

/// Appends to the layout those cells of a list that exist on the board, two cells per byte. Fails if memory runs out.
fn add_pairs(layout: &mut Vec<StateByte>, board: &Board, list: CellList) -> Result<(), AllocError>
    requires { is_narrow list ≡ true }
    ensures keeps { OnOk result (ContainsBytesOf layout.old.items layout.new.items) }
    ensures has { OnOk result (ContainsCellsOf board.now layout.new.items list) }
{
    for pair in 0..list.count() / 2 {
        if board_has_pair(board, list, pair) {
            layout.push(StateByte::Pair(list, pair))?;
        }
    }
    Ok(())
}

/// Appends to the layout those cells of a list that exist on the board. Fails if memory runs out.
fn add_list(layout: &mut Vec<StateByte>, board: &Board, list: CellList) -> Result<(), AllocError>
    ensures keeps { OnOk result (ContainsBytesOf layout.old.items layout.new.items) }
    ensures has { OnOk result (ContainsCellsOf board.now layout.new.items list) }
{
    if list.is_narrow() {
        add_pairs(layout, board, list)?;
    } else {
        add_cells(layout, board, list)?;
    }
    Ok(())
}

/// Returns a board's layout, which contains every cell that exists on the board. Fails if memory runs out.
pub fn layout_of(alloc: Global, board: &Board) -> Result<Vec<StateByte>, AllocError>
    ensures { IfOk result (λ layout. IsComplete board.now layout.items) }
{
    // The proof learns from this call that a board has at most four chains.
    let _parts = board.parts();
    let mut layout = Vec::new(alloc);
    for n in 0..CHAINS {
        add_list(&mut layout, board, CellList::Chain(n as u8))?;
    }
    add_list(&mut layout, board, CellList::Counters)?;
    add_list(&mut layout, board, CellList::Registers)?;
    add_list(&mut layout, board, CellList::BankSrcBytes)?;
    add_list(&mut layout, board, CellList::RomPorts)?;
    add_list(&mut layout, board, CellList::RamPorts)?;
    add_list(&mut layout, board, CellList::StatusCharacters)?;
    add_list(&mut layout, board, CellList::RamNibbles)?;
    Ok(layout)
}
