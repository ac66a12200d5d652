ghost use Rattle.std.specs.Prelude.{◌≡◌, ◌⊎◌, ℕ, ◌<◌, ◌≤◌, List, length, All};
ghost use Rattle.cron_fields.specs.Field.{IsField, IsFieldByte, IsFieldFault};
ghost use Rattle.cron_fields.specs.FieldSet.{Has, least_of};
ghost use Rattle.cron_fields.specs.Item.{last_of};
ghost use Rattle.cron_fields.specs.Seed.{Seed};
ghost use Rattle.cron_fields.specs.declared.field.FieldKind.{FieldKind};
ghost use Rattle.cron_fields.specs.declared.field.FieldSet.{FieldSet};

/// A law: each text stands for one set, or breaks one rule first at one place, and never both.
pub fn a_field_has_one_reading()
    ensures some { (kind : FieldKind) (text : List ℕ) (seed : Seed)
        → ((set : FieldSet) × IsField kind text seed set) ⊎ ((cause : ℕ) × (place : ℕ) × IsFieldFault kind text cause place) }
    ensures not_both { (kind : FieldKind) (text : List ℕ) (seed : Seed) (set : FieldSet) (cause place : ℕ)
        → IsField kind text seed set → IsFieldFault kind text cause place → ⊥ }
    ensures one_set { (kind : FieldKind) (text : List ℕ) (seed : Seed) (a b : FieldSet)
        → IsField kind text seed a → IsField kind text seed b → a ≡ b }
    ensures one_fault { (kind : FieldKind) (text : List ℕ) (cause place other_cause other_place : ℕ)
        → IsFieldFault kind text cause place → IsFieldFault kind text other_cause other_place
        → (cause ≡ other_cause) × (place ≡ other_place) }
{}

/// A law: the values of a field are of its kind, from the least to the greatest; of a weekday 0 to 6.
pub fn a_field_has_values_of_its_kind()
    ensures { (kind : FieldKind) (text : List ℕ) (seed : Seed) (set : FieldSet) (value : ℕ)
        → IsField kind text seed set → Has set value → (least_of kind ≤ value) × (value ≤ last_of kind) }
{}

/// A law: a field is not empty and has only letters, digits and `*`, `,`, `-`, `/`, `?`, so no blank, newline or NUL.
pub fn a_field_has_no_blank()
    ensures { (kind : FieldKind) (text : List ℕ) (seed : Seed) (set : FieldSet)
        → IsField kind text seed set → (0 < length text) × All IsFieldByte text }
{}

/// A law: a fault has one of the causes 1 to 9, and stands in its text or at its end.
pub fn a_fault_lies_in_its_text()
    ensures cause { (kind : FieldKind) (text : List ℕ) (cause place : ℕ)
        → IsFieldFault kind text cause place → (1 ≤ cause) × (cause ≤ 9) }
    ensures place { (kind : FieldKind) (text : List ℕ) (cause place : ℕ)
        → IsFieldFault kind text cause place → place ≤ length text }
{}
