//! The lines of a text, and the statements in them.

ghost use Rattle.std.specs.Prelude.{◌≡◌, ◌<◌, ◌∷◌, not, length, map, position, IfOk};
ghost use Rattle.std.specs.Str.Lines.{lines, strip_carriage_return};
ghost use Rattle.statements.specs.Statements.{field, fields_of, is_blank, is_newline, is_statement};

use std::alloc::{AllocError, Global};
use std::marker::Model;

/// The first line of a text that is not empty, and what follows it. A line ends with `\n`; one
/// `\r` directly before it is dropped, and the last line may lack its end.
pub fn first_line(text: &[u8]) -> (&[u8], &[u8])
    requires { 0 < length text.now }
    ensures line { lines text.now ≡ result.0.now ∷ lines result.1.now }
    ensures shorter { length result.1.now < length text.now }
{
    let Some(end) = newline_in(text) else {
        return (text, &[]);
    };
    (without_return(&text[..end]), &text[end + 1..])
}

/// The index of the first `\n`.
fn newline_in(text: &[u8]) -> Option<usize>
    ensures { result ≡ position is_newline text.now }
{
    text.iter().position(|byte| *byte == b'\n')
}

/// A line without one `\r` at its end.
fn without_return(line: &[u8]) -> &[u8]
    ensures { result.now ≡ strip_carriage_return line.now }
{
    if line.is_empty() || line[line.len() - 1] != b'\r' {
        return line;
    }
    &line[..line.len() - 1]
}

/// A space or a tab.
fn is_blank(byte: u8) -> bool
    ensures { result ≡ is_blank byte }
{
    byte == b' ' || byte == b'\t'
}

/// The fields of a line: what stands between spaces and tabs.
fn fields_in<'a>(alloc: Global, line: &'a [u8]) -> Result<Vec<&'a [u8]>, AllocError>
    ensures { IfOk result
        (λ fields. map (λ field. field.now) fields.items ≡ fields_of line.now) }
{
    line.split(|byte| is_blank(*byte))
        .filter(|part| !part.is_empty())
        .collect(alloc)
}

/// A line, as its fields.
#[derive(Drop)]
pub struct Statement<'a> {
    fields: Vec<&'a [u8]>,
}

impl<'a> Model for Statement<'a> {
    ghost use Rattle.std.specs.Prelude.{List, ℕ, map};

    ghost Value = { List (List ℕ) };

    ghost view = { λ s. map (λ field. field.now) s.fields.items };
}

impl<'a> Statement<'a> {
    pub fn of_line(alloc: Global, line: &'a [u8]) -> Result<Statement<'a>, AllocError>
        ensures { IfOk result (λ s. s ≡ fields_of line.now) }
    {
        Ok(Statement {
            fields: fields_in(alloc, line)?,
        })
    }

    /// How many fields there are.
    pub fn len(&self) -> usize
        ensures { result ≡ length self.now }
    {
        self.fields.len()
    }

    /// The field at an index, from 0; there is nothing behind the last one.
    pub fn field(&self, index: usize) -> &[u8]
        ensures { result.now ≡ field self.now index }
    {
        match self.fields.get(index) {
            Some(field) => field,
            None => &[],
        }
    }

    /// Whether the line says nothing: it has no fields, or the first one begins with `#`.
    #[tactic(auto, unfolding(crate::specs::Statements::is_statement))]
    pub fn is_passed_over(&self) -> bool
        ensures { result ≡ not (is_statement self.now) }
    {
        if self.len() == 0 {
            return true;
        }
        self.field(0).starts_with(b"#")
    }
}
