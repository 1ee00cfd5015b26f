// Names in fields.

ghost use Rattle.std.specs.Prelude.{◌≡◌};
ghost use Rattle.std.specs.List.{list_all};
ghost use Rattle.line_form.specs.Name.{is_name as is_name_of, is_name_byte as is_name_byte_of};

/// Whether a field is a name: 1 to 32 ASCII letters, digits, `_`, `.` or `-`.
pub fn is_name(field: &[u8]) -> bool
    ensures { result ≡ is_name_of field.now }
{
    1 <= field.len() && field.len() <= 32 && has_name_bytes(field)
}

/// Whether each byte of a field may stand in a name.
fn has_name_bytes(field: &[u8]) -> bool
    ensures { result ≡ list_all is_name_byte_of field.now }
{
    field.iter().all(|byte| is_name_byte(*byte))
}

/// Whether a byte may stand in a name.
fn is_name_byte(byte: u8) -> bool
    ensures { result ≡ is_name_byte_of byte }
{
    byte.is_ascii_alphanumeric() || byte == b'_' || byte == b'.' || byte == b'-'
}
