ghost use Rattle.code_pieces.specs.Laws.{PiecesAreFollowed, PiecePartsAreValid, PieceProgramsHaveFacts};
ghost use Rattle.code_pieces.specs.Worked.{PiecesAreWorked};

/// A law: take valid code, and an entry whose part is a piece and an instruction that ends it. A run from there does what the
/// piece does to the opening work, and then what the last instruction does.
pub fn pieces_are_followed()
    ensures { PiecesAreFollowed }
{}

/// A law: a well-made piece within the limits of height and cost is, with its end, a valid part. The part costs one more than
/// the piece.
pub fn piece_parts_are_valid()
    ensures { PiecePartsAreValid }
{}

/// A law: a program whose parts are such pieces, within the limits of a unit, is valid code.
pub fn piece_programs_have_facts()
    ensures { PieceProgramsHaveFacts }
{}

/// A law: by the definitions, the code of small pieces, what they do, cost and need, and runs of them are those that were worked
/// out by hand.
pub fn pieces_are_worked()
    ensures { PiecesAreWorked }
{}
