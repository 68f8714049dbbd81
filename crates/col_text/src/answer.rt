// The texts of answers.
ghost use Rattle.std.specs.Prelude.{◌≡◌, ◌++◌, OnOk, IfOk, string_bytes};
ghost use Rattle.std.specs.List.{flat_map};
ghost use Rattle.col_text.specs.Answer.{
  HasText,
  bad_line_text,
  column_text,
  fault_text,
  header_text,
  slot_line,
};

use crate::dtypes::push_dtype;
use crate::rows::push_chunks;
use col_expr::EvalError;
use col_series::{Physical, Series};
use std::alloc::{AllocError, Global};

fn push_header(text: &mut String, column: &Series) -> Result<(), AllocError>
    ensures text { OnOk result (string_bytes text.new
        ≡ string_bytes text.old ++ header_text column.now.column) }
{
    text.push_str(column.name().as_str())?;
    text.push_str(" ")?;
    push_dtype(text, column.dtype())?;
    writeln!(text, " {}", column.len())
}

fn header(alloc: Global, column: &Series) -> Result<Vec<u8>, AllocError>
    ensures text { IfOk result (λ v. v.items ≡ header_text column.now.column) }
{
    let mut text = String::new(alloc);
    push_header(&mut text, column)?;
    Ok(text.into_bytes())
}

/// Adds the lines of a column's slots.
fn push_rows(text: &mut Vec<u8>, column: &Series) -> Result<(), AllocError>
    ensures text { OnOk result (text.new.items ≡ text.old.items
        ++ flat_map slot_line column.now.column.slots) }
{
    match column.physical() {
        Physical::Int32(words) => push_chunks(text, words.chunks()),
        Physical::Int64(words) => push_chunks(text, words.chunks()),
    }
}

/// The answer of a column: a line of its name, its type and the number of its rows, and then a line
/// for each slot.
pub fn answer_text(alloc: Global, column: &Series) -> Result<Vec<u8>, AllocError>
    ensures text { IfOk result (λ v. v.items ≡ column_text column.now.column) }
{
    column.known();
    let mut text = header(alloc, column)?;
    push_rows(&mut text, column)?;
    Ok(text)
}

fn refusal_line(alloc: Global, fault: &EvalError) -> Result<String, AllocError>
    requires refusal { HasText fault.now }
    ensures text { IfOk result (λ text. string_bytes text ≡ fault_text fault.now) }
{
    match fault {
        EvalError::NoColumn { node, index, count } => {
            format!(in alloc; "refused {node} column {index} {count}\n")
        }
        EvalError::Lengths { node, left, right } => {
            format!(in alloc; "refused {node} lengths {left} {right}\n")
        }
        EvalError::BadType { node } => format!(in alloc; "refused {node} type\n"),
        EvalError::Unsupported { node } => format!(in alloc; "refused {node} unsupported\n"),
        EvalError::Scalar { node } => format!(in alloc; "refused {node} scalar\n"),
        EvalError::Strict { node, row } => format!(in alloc; "refused {node} strict {row}\n"),
        EvalError::NoMemory => unreachable!(),
    }
}

/// The line of a refusal: its node and its cause. Want of memory is no refusal of a node, and has
/// no line.
pub fn fault_text(alloc: Global, fault: &EvalError) -> Result<Vec<u8>, AllocError>
    requires refusal { HasText fault.now }
    ensures text { IfOk result (λ v. v.items ≡ fault_text fault.now) }
{
    let text = refusal_line(alloc, fault)?;
    Ok(text.into_bytes())
}

/// The line of a bad script: the number of its first bad line.
pub fn bad_line_text(alloc: Global, line: u32) -> Result<Vec<u8>, AllocError>
    ensures text { IfOk result (λ v. v.items ≡ bad_line_text line) }
{
    let text = format!(in alloc; "bad line {line}\n")?;
    Ok(text.into_bytes())
}
