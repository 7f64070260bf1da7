// The form of an external id.
ghost use Rattle.std.specs.Prelude.{◌≡◌};
ghost use Rattle.std.specs.List.{list_all};
ghost use Rattle.std.specs.Int.{is_in_range};
ghost use Rattle.external_ids.specs.Form.{is_external};

/// Whether the text has the form of an external id: 1 to 64 printable characters of ASCII, the space among them.
pub fn is_external(text: &str) -> bool
    ensures { result ≡ is_external text.now }
{
    1 <= text.len() && text.len() <= 64 && are_printable(text.as_bytes())
}

fn are_printable(bytes: &[u8]) -> bool
    ensures { result ≡ list_all (λ b. is_in_range 32 126 b) bytes.now }
{
    bytes.iter().all(|byte| 32 <= *byte && *byte <= 126)
}
