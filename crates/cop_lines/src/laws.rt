//! What holds of a text that comes in pieces.

ghost use Rattle.std.specs.Prelude.{◌≡◌, ℕ, List, [], ◌∷◌, ◌++◌};
ghost use Rattle.std.specs.List.{concat};
ghost use Rattle.cop_lines.specs.Texts.{AreCut, all_of, lines_of};

/// Whatever the pieces of a text are: the lines that end in them, one piece after the other, and then what is kept behind them, are the
/// lines of the whole text.
pub fn pieces_give_the_lines_of_the_whole()
    ensures { (pieces : List (List ℕ)) (lines : List (List (List ℕ))) (kept : List ℕ)
        → AreCut [] pieces lines kept → lines_of (concat pieces) ≡ all_of lines ++ kept ∷ [] }
{}
