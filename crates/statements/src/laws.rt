//! What is printed is read again.

ghost use Rattle.std.specs.Prelude.{◌≡◌, ℕ, ℤ, List, All, Some};
ghost use Rattle.std.specs.Fmt.{signed_decimal};
ghost use Rattle.std.specs.List.{flat_map};
ghost use Rattle.stream_case.specs.Digits.{IsOfDigits, integer_in};
ghost use Rattle.statements.specs.Statements.{IsPlainField, IsPlainStatement, Statement, statement_text, statements_of};

/// Statements of plain fields are read from their lines as themselves.
pub fn plain_statements_are_read_again()
    ensures { (ss : List Statement) → All IsPlainStatement ss →
        statements_of (flat_map statement_text ss) ≡ ss }
{}

/// A whole number of few enough digits is printed as a plain field, and read from it as itself.
pub fn printed_numbers_are_read_again()
    ensures plain { (most : ℕ) (z : ℤ) → IsOfDigits most z
        → IsPlainField (signed_decimal z) }
    ensures again { (most : ℕ) (z : ℤ) → IsOfDigits most z →
        integer_in most (signed_decimal z) ≡ Some z }
{}
