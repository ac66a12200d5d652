//! The words of the product's own lines.
ghost use Rattle.std.specs.Prelude.{◌≡◌, ◌≢◌, ◌↔◌, IsTrue, IfSome, IfNone};
ghost use Rattle.run_text.specs.Grammar.{IsLabelStart, IsLabelByte, IsLabel, IsZoneByte, IsZoneName, first_word, section_word, HasSectionWord};
ghost use Rattle.run_text.specs.Versions.{HasVersionWord};
ghost use Rattle.run_text.specs.Zones.{HasZoneWord};
ghost use Rattle.run_text.specs.declared.run.SectionKind.{SectionKind};

use crate::run::SectionKind;

fn is_label_start(byte: u8) -> bool
    ensures { IsTrue result ↔ IsLabelStart byte }
{
    matches!(byte, b'a'..=b'z' | b'_')
}

fn is_label_byte(byte: u8) -> bool
    ensures { IsTrue result ↔ IsLabelByte byte }
{
    is_label_start(byte) || matches!(byte, b'0'..=b'9' | b'-')
}

/// Whether a text is a section's label: `[a-z_][a-z0-9_-]{0,31}`.
pub fn is_label(text: &str) -> bool
    ensures { IsTrue result ↔ IsLabel text.now }
{
    match text.as_bytes().split_first() {
        Some((first, rest)) => {
            is_label_start(*first)
                && rest.len() <= 31
                && rest.iter().all(|byte| is_label_byte(*byte))
        }
        None => false,
    }
}

fn is_zone_byte(byte: u8) -> bool
    ensures { IsTrue result ↔ IsZoneByte byte }
{
    matches!(byte, b'A'..=b'Z' | b'a'..=b'z' | b'0'..=b'9' | b'/' | b'_' | b'-' | b'+')
}

/// Whether a text is a zone's name: 1 to 64 ASCII letters, digits, `/`, `_`, `-` and `+`.
pub fn is_zone_name(text: &str) -> bool
    ensures { IsTrue result ↔ IsZoneName text.now }
{
    let bytes = text.as_bytes();
    !bytes.is_empty() && bytes.len() <= 64 && bytes.iter().all(|byte| is_zone_byte(*byte))
}

/// The text up to its first space.
pub fn first_word(text: &str) -> &str
    ensures { result.now ≡ first_word text.now }
{
    match text.split_once(' ') {
        Some((word, _)) => word,
        None => text,
    }
}

/// What a section is that the word opens.
pub fn kind_of(word: &str) -> Option<SectionKind>
    ensures found { IfSome result (λ kind. word.now ≡ section_word kind) }
    ensures none { IfNone result ((kind : SectionKind) → word.now ≢ section_word kind) }
{
    match word {
        "crontab" => Some(SectionKind::User),
        "system" => Some(SectionKind::System),
        "anacrontab" => Some(SectionKind::Anacron),
        _ => None,
    }
}

/// Whether the line's first word opens a section.
pub fn has_section_word(line: &str) -> bool
    ensures { IsTrue result ↔ HasSectionWord line.now }
{
    kind_of(first_word(line)).is_some()
}

/// Whether the line's first word is that of a zone's line.
pub fn has_zone_word(line: &str) -> bool
    ensures { IsTrue result ↔ HasZoneWord line.now }
{
    first_word(line) == "zone"
}

/// Whether the line's first word is that of a version's line.
pub fn has_version_word(line: &str) -> bool
    ensures { IsTrue result ↔ HasVersionWord line.now }
{
    first_word(line) == "version"
}
