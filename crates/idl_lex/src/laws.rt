//! Laws of pieces and faults. Each function does nothing; its contract is the law.

ghost use Rattle.std.specs.Prelude.{◌≡◌, List, ℕ};
ghost use Rattle.idl_lex.specs.Pieces.{Piece};
ghost use Rattle.idl_lex.specs.Lexed.{ArePieces, IsFirstFault, TextsAreDecided};
ghost use Rattle.idl_lex.specs.declared.kinds.Front.{Front};
ghost use Rattle.idl_lex.specs.declared.lexing.LexErr.{LexErr};

/// The pieces of a text are determined.
pub fn pieces_are_determined()
    ensures { (front : Front) (text : List ℕ) (ps qs : List Piece) → ArePieces front text ps
        → ArePieces front text qs → ps ≡ qs }
{}

/// The first fault of a text is determined.
pub fn fault_is_determined()
    ensures { (front : Front) (text : List ℕ) (e f : LexErr) → IsFirstFault front text e
        → IsFirstFault front text f → e ≡ f }
{}

/// A text has tokens or a first fault.
pub fn texts_are_decided()
    ensures { (front : Front) → TextsAreDecided front }
{}

/// A text does not have both pieces and a fault.
pub fn pieces_leave_no_fault()
    ensures { (front : Front) (text : List ℕ) (ps : List Piece) (e : LexErr) → ArePieces front text ps
        → IsFirstFault front text e → ⊥ }
{}
