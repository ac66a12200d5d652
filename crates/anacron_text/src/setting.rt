ghost use Rattle.std.specs.Prelude.{◌≡◌, ℕ, List, IfSome, IfNone};
ghost use Rattle.crontab_text.specs.Assignment.{IsAssignment};
ghost use Rattle.anacron_text.specs.Setting.{IsSetting, IsPlacedValue};
ghost use Rattle.anacron_text.specs.Spaced.{spaced};

use crate::blank::{drop_blanks, skip_blanks};
use crontab_text::{cut_behind_name, is_name, unquote};

/// A variable that a line sets.
#[derive(Clone, Copy, Debug)]
pub struct Setting<'a> {
    pub name: &'a str,
    pub value: PlacedValue<'a>,
}

/// A value without outer blanks and without quotes round it.
#[derive(Clone, Copy, Debug)]
pub struct PlacedValue<'a> {
    pub text: &'a str,
    /// How many bytes of the line stand from the value's first byte to its end.
    pub left: usize,
}

/// Reads a text that sets a variable. Any other text is `None`, also one that begins with a blank.
pub fn read_setting(text: &str) -> Option<Setting<'_>>
    ensures read { IfSome result (λ setting.
        IsSetting text.now setting.name.now setting.value.text.now setting.value.left) }
    ensures none { IfNone result ((name value : List ℕ) → IsAssignment (spaced text.now) name value → ⊥) }
{
    let (name, behind) = cut_behind_name(text);
    if !is_name(name) {
        return None;
    }
    let behind = skip_blanks(behind).strip_prefix('=')?;
    Some(Setting {
        name,
        value: value_of(behind),
    })
}

// The value that stands behind `=`.
fn value_of(behind: &str) -> PlacedValue<'_>
    ensures { IsPlacedValue behind.now result.text.now result.left }
{
    let rest = skip_blanks(behind);
    let trimmed = drop_blanks(rest);
    let text = unquote(trimmed);
    let quotes = trimmed.len() - text.len();
    PlacedValue {
        text,
        left: rest.len() - quotes / 2,
    }
}
