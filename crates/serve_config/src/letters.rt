//! Which letters the texts of a configuration may have.
ghost use Rattle.std.specs.Prelude.{◌≡◌};
ghost use Rattle.std.specs.List.{list_all};
ghost use Rattle.serve_config.specs.Letters.{is_name_byte as is_name, is_path_byte as is_in_path, is_content_type_byte as is_in_content_type, is_path as is_whole_path};

/// Whether a tenant's name may have the byte.
fn is_name_byte(byte: u8) -> bool
    ensures { result ≡ is_name byte }
{
    matches!(byte, b'a'..=b'z' | b'0'..=b'9' | b'_' | b'-')
}

/// Whether all letters are those of tenants' names.
pub(crate) fn has_name_letters(name: &str) -> bool
    ensures { result ≡ list_all is_name name.now }
{
    name.as_bytes().iter().all(|byte| is_name_byte(*byte))
}

/// Whether a path may have the byte: a visible one that has no meaning in patterns of paths or in targets.
fn is_path_byte(byte: u8) -> bool
    ensures { result ≡ is_in_path byte }
{
    matches!(byte, 0x21..=0x7E) && !matches!(byte, b'{' | b'}' | b':' | b'*' | b'?')
}

/// Whether all bytes are those of paths.
fn has_path_letters(bytes: &[u8]) -> bool
    ensures { result ≡ list_all is_in_path bytes.now }
{
    bytes.iter().all(|byte| is_path_byte(*byte))
}

/// Whether the text is a path: `/` and letters that a path may have.
pub(crate) fn is_path(path: &str) -> bool
    ensures { result ≡ is_whole_path path.now }
{
    match path.as_bytes() {
        [b'/', rest @ ..] => has_path_letters(rest),
        _ => false,
    }
}

/// Whether a content type may have the byte: a blank or a visible one.
fn is_content_type_byte(byte: u8) -> bool
    ensures { result ≡ is_in_content_type byte }
{
    matches!(byte, 0x20..=0x7E)
}

/// Whether all letters are those of content types.
pub(crate) fn has_content_type_letters(content_type: &str) -> bool
    ensures { result ≡ list_all is_in_content_type content_type.now }
{
    content_type
        .as_bytes()
        .iter()
        .all(|byte| is_content_type_byte(*byte))
}
