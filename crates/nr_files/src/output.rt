//! What is written.

ghost use Rattle.std.specs.Prelude.{◌≡◌, IfOk};
ghost use Rattle.json.specs.Layout.{pretty};
ghost use Rattle.json.specs.Print.{print};
ghost use Rattle.serde_json.specs.View.{view};
ghost use Rattle.nr_files.specs.Answers.{output_in};
ghost use Rattle.nr_files.specs.Due.{IsLineOf, IsWritten, laid};

use nr_bytes::Blob;
use serde_json::Value;
use std::alloc::{AllocError, Global};

/// What a command writes.
#[derive(Drop)]
pub enum Output {
    /// These bytes.
    Bytes(Blob),
    /// A text of this value, over lines.
    Json(Value),
    /// A text of this value without spaces.
    Compact(Value),
}

/// The same without spaces, where this is asked for.
pub(crate) fn laid(compact: bool, output: Output) -> Output
    ensures { output_in result ≡ laid compact (output_in output) }
{
    match output {
        Output::Bytes(bytes) => Output::Bytes(bytes),
        Output::Json(json) => if compact {
            Output::Compact(json)
        } else {
            Output::Json(json)
        },
        Output::Compact(json) => Output::Compact(json),
    }
}

/// A text of a value over lines, and a line feed.
fn over_lines(alloc: Global, json: &Value) -> Result<Blob, AllocError>
    ensures { IfOk result (λ bytes. IsLineOf pretty (view json.now) bytes) }
{
    let mut text = json.to_vec_pretty(alloc)?;
    text.push(b'\n')?;
    Ok(Blob::of(text))
}

/// The same without spaces.
fn on_one_line(alloc: Global, json: &Value) -> Result<Blob, AllocError>
    ensures { IfOk result (λ bytes. IsLineOf print (view json.now) bytes) }
{
    let mut text = json.to_vec(alloc)?;
    text.push(b'\n')?;
    Ok(Blob::of(text))
}

/// The bytes that are written.
///
/// # Errors
///
/// Where memory runs out.
pub(crate) fn bytes_of(alloc: Global, output: Output) -> Result<Blob, AllocError>
    ensures { IfOk result (λ bytes. IsWritten (output_in output) bytes) }
{
    match output {
        Output::Bytes(bytes) => Ok(bytes),
        Output::Json(json) => over_lines(alloc, &json),
        Output::Compact(json) => on_one_line(alloc, &json),
    }
}
