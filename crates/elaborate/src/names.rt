//! The names of plan nodes.

ghost use Rattle.std.specs.Prelude.{◌≡◌, ◌++◌, [], IfOk, decimal, string_bytes};

use std::alloc::{AllocError, Global};

/// The name of a document node.
pub(crate) fn own_name(alloc: Global, name: &str) -> Result<String, AllocError>
    ensures { IfOk result (λ text. string_bytes text ≡ name.now ++ []) }
{
    String::from_str(alloc, name)
}

/// The name of a document node, and something behind it.
pub(crate) fn suffixed_name(alloc: Global, name: &str, suffix: &str) -> Result<String, AllocError>
    ensures { IfOk result (λ text. string_bytes text ≡ name.now ++ suffix.now) }
{
    let mut text = String::from_str(alloc, name)?;
    text.push_str(suffix)?;
    Ok(text)
}

/// The name of a document node, and something behind it with a number.
pub(crate) fn numbered_name(
    alloc: Global,
    name: &str,
    suffix: &str,
    number: u32,
) -> Result<String, AllocError>
    ensures { IfOk result (λ text. string_bytes text ≡ name.now ++ (suffix.now ++ decimal number)) }
{
    let mut text = suffixed_name(alloc, name, suffix)?;
    let mut buffer = itoa::Buffer::new();
    text.push_str(buffer.format(number))?;
    Ok(text)
}
