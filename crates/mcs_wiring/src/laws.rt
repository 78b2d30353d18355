//! Laws of the definitions, stated as contracts of functions with empty bodies.
ghost use Rattle.std.specs.Prelude.{◌≡◌, ◌∷◌, ◌++◌, [], true, Some, codes};
ghost use Rattle.mcs_model.specs.Boards.{in_range};
ghost use Rattle.mcs_model.specs.TextLines.{as_line};
ghost use Rattle.mcs_model.specs.declared.board.BoardParts.{BoardParts};
ghost use Rattle.mcs_model.specs.declared.board.Line.{Line};
ghost use Rattle.mcs_nibble.specs.declared.lines.LineMask.{LineMask};
ghost use Rattle.mcs_wiring.specs.BoardText.{board_text, query_text};
ghost use Rattle.mcs_wiring.specs.LineNames.{line_name, line_named, port_text, masks_named};

/// Proves that the name of each line in range parses as that line, and the text of each port as its
/// masks. Therefore no two such lines have the same name, and no two lists of four masks have the
/// same text.
pub fn names_are_read_back()
    ensures lines { (line : Line) → in_range line ≡ true → line_named (line_name line) ≡ Some line }
    ensures ports { (m0 m1 m2 m3 : LineMask)
        → masks_named (port_text (m0 ∷ m1 ∷ m2 ∷ m3 ∷ [])) ≡ Some (m0 ∷ m1 ∷ m2 ∷ m3 ∷ []) }
{}

/// Proves that the answer to the query `board`, followed by a line feed, is the line `board` and
/// then the board's text.
pub fn query_text_is_the_board_text()
    ensures { (board : BoardParts)
        → query_text board ++ 10 ∷ [] ≡ as_line (codes "board") ++ board_text board }
{}
