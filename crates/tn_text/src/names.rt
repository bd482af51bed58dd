//! The names of texts.

ghost use Rattle.std.specs.Prelude.{◌≡◌, IfOk};
ghost use Rattle.std.specs.List.{list_all};
ghost use Rattle.tn_text.specs.Names.{is_name as is_name_text, is_name_start as is_name_start_byte, is_name_byte as is_name_byte_at};

use std::alloc::{AllocError, Global};
use tn_base::name::Name;

fn is_name_start(byte: u8) -> bool
    ensures { result ≡ is_name_start_byte byte }
{
    byte.is_ascii_alphabetic() || byte == b'_'
}

fn is_name_byte(byte: u8) -> bool
    ensures { result ≡ is_name_byte_at byte }
{
    byte.is_ascii_alphanumeric() || byte == b'_'
}

fn are_name_bytes(bytes: &[u8]) -> bool
    ensures { result ≡ list_all is_name_byte_at bytes.now }
{
    bytes.iter().all(|b| is_name_byte(*b))
}

/// A letter or `_`, then letters, digits and `_`, at most 32 bytes in all.
pub fn is_name(text: &[u8]) -> bool
    ensures { result ≡ is_name_text text.now }
{
    match text {
        [] => false,
        [first, rest @ ..] => is_name_start(*first) && rest.len() < 32 && are_name_bytes(rest),
    }
}

/// A name of these bytes.
pub fn copy_name(alloc: Global, text: &[u8]) -> Result<Name, AllocError>
    ensures { IfOk result (λ name. name ≡ text.now) }
{
    let bytes = Vec::from_slice(alloc, text)?;
    Ok(Name::of(bytes))
}
