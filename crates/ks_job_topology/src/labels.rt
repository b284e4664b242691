//! Bytes of names.
ghost use Rattle.std.specs.Prelude.{◌≡◌};
ghost use Rattle.std.specs.List.{list_all};
ghost use Rattle.ks_job_topology.specs.Labels.{is_word_byte, is_label_byte};

fn is_word(byte: u8) -> bool
    ensures { result ≡ is_word_byte byte }
{
    byte.is_ascii_alphanumeric() || byte == b'_'
}

/// Whether each byte is a letter or a digit of ASCII, or an underscore.
pub fn all_words(bytes: &[u8]) -> bool
    ensures { result ≡ list_all is_word_byte bytes.now }
{
    bytes.iter().all(|b| is_word(*b))
}

fn is_label_part(byte: u8) -> bool
    ensures { result ≡ is_label_byte byte }
{
    is_word(byte) || byte == b'.' || byte == b'-'
}

/// Whether each byte is a letter or a digit of ASCII, an underscore, a dot or a hyphen.
pub fn all_labels(bytes: &[u8]) -> bool
    ensures { result ≡ list_all is_label_byte bytes.now }
{
    bytes.iter().all(|b| is_label_part(*b))
}
