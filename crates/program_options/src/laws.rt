//! Laws of options. Each is the contract of a function that does nothing.
ghost use Rattle.std.specs.Prelude.{◌≡◌, ◌≢◌, ◌≤◌, [], ◌∷◌, ◌++◌, ℕ, List, false, true, codes, decimal};
ghost use Rattle.program_options.specs.Words.{Asks, HasNoOptions, IsNameWithValue, IsSpelledBy, MayStandTogether};
ghost use Rattle.program_options.specs.declared.words.Asked.{Asked};
ghost use Rattle.program_options.specs.declared.words.Choice.{Choice};
ghost use Rattle.program_options.specs.declared.words.Output.{Output};
ghost use Rattle.program_options.specs.declared.words.Request.{Request};

/// Words ask for one text at most: without a word for the report, by `--watch` for what was seen of the board after it, by `--journal`
/// for the journal after these, by `--list` for the due instants, by `--check` for the check of the tables, by `--make` for the summary
/// of the run that a seed makes, by `--audit` for an audit, and by `--lanes` before or after these for a number of lanes. Options that may
/// not stand together ask for nothing, nor does any other word.
pub fn words_ask_for_one_text()
    ensures one { (words : List (List ℕ)) (a b : Asked) → Asks words a → Asks words b → a ≡ b }
    ensures none { (words : List (List ℕ)) (asked : Asked) → Asks words asked → HasNoOptions words → ⊥ }
    ensures lanes { (words : List (List ℕ)) (asked : Asked) → Asks words asked → (1 ≤ asked.lanes) × (asked.lanes ≤ 8) }
    ensures report { (asked : Asked) → asked.request ≡ Request.Text (Output.Report false false) → asked.lanes ≡ 1 → Asks [] asked }
    ensures list { (asked : Asked) → asked.request ≡ Request.Text Output.DueList → asked.lanes ≡ 1 → Asks (codes "--list" ∷ []) asked }
    ensures check { (asked : Asked) → asked.request ≡ Request.Text Output.Check → asked.lanes ≡ 1 → Asks (codes "--check" ∷ []) asked }
    ensures audit { (asked : Asked) → asked.request ≡ Request.Audit → asked.lanes ≡ 1 → Asks (codes "--audit" ∷ []) asked }
    ensures journal { (asked : Asked) → asked.request ≡ Request.Text (Output.Report false true) → asked.lanes ≡ 1
        → Asks (codes "--journal" ∷ []) asked }
    ensures watch { (asked : Asked) → asked.request ≡ Request.Text (Output.Report true false) → asked.lanes ≡ 1
        → Asks (codes "--watch" ∷ []) asked }
    ensures both { (asked : Asked) → asked.request ≡ Request.Text (Output.Report true true) → asked.lanes ≡ 1
        → Asks (codes "--watch" ∷ codes "--journal" ∷ []) asked × Asks (codes "--journal" ∷ codes "--watch" ∷ []) asked }
    ensures make { (asked : Asked) (seed : ℕ) (own : List (List ℕ)) → seed ≤ 4_294_967_295 → IsNameWithValue (codes "--make") (decimal seed) own
        → asked.request ≡ Request.Text (Output.Summary seed) → asked.lanes ≡ 1 → Asks own asked }
    ensures on_lanes { (asked : Asked) (own : List (List ℕ)) → 1 ≤ asked.lanes → asked.lanes ≤ 8
        → IsNameWithValue (codes "--lanes") (decimal asked.lanes) own → asked.request ≡ Request.Text (Output.Report false false) → Asks own asked }
    ensures list_on_lanes { (asked : Asked) (own : List (List ℕ)) → 1 ≤ asked.lanes → asked.lanes ≤ 8
        → IsNameWithValue (codes "--lanes") (decimal asked.lanes) own → asked.request ≡ Request.Text Output.DueList
        → Asks (codes "--list" ∷ own) asked × Asks (own ++ codes "--list" ∷ []) asked }
    ensures check_on_lanes { (asked : Asked) (own : List (List ℕ)) → 1 ≤ asked.lanes → asked.lanes ≤ 8
        → IsNameWithValue (codes "--lanes") (decimal asked.lanes) own → asked.request ≡ Request.Text Output.Check
        → Asks (codes "--check" ∷ own) asked × Asks (own ++ codes "--check" ∷ []) asked }
    ensures audit_on_lanes { (asked : Asked) (own : List (List ℕ)) → 1 ≤ asked.lanes → asked.lanes ≤ 8
        → IsNameWithValue (codes "--lanes") (decimal asked.lanes) own → asked.request ≡ Request.Audit
        → Asks (codes "--audit" ∷ own) asked × Asks (own ++ codes "--audit" ∷ []) asked }
    ensures journal_on_lanes { (asked : Asked) (own : List (List ℕ)) → 1 ≤ asked.lanes → asked.lanes ≤ 8
        → IsNameWithValue (codes "--lanes") (decimal asked.lanes) own → asked.request ≡ Request.Text (Output.Report false true)
        → Asks (codes "--journal" ∷ own) asked × Asks (own ++ codes "--journal" ∷ []) asked }
    ensures watch_on_lanes { (asked : Asked) (own : List (List ℕ)) → 1 ≤ asked.lanes → asked.lanes ≤ 8
        → IsNameWithValue (codes "--lanes") (decimal asked.lanes) own → asked.request ≡ Request.Text (Output.Report true false)
        → Asks (codes "--watch" ∷ own) asked × Asks (own ++ codes "--watch" ∷ []) asked }
    ensures make_on_lanes { (asked : Asked) (seed : ℕ) (own other : List (List ℕ)) → 1 ≤ asked.lanes → asked.lanes ≤ 8
        → IsNameWithValue (codes "--lanes") (decimal asked.lanes) own → seed ≤ 4_294_967_295 → IsNameWithValue (codes "--make") (decimal seed) other
        → asked.request ≡ Request.Text (Output.Summary seed) → Asks (other ++ own) asked × Asks (own ++ other) asked }
    ensures apart { (first second : Choice) (own other behind : List (List ℕ)) → IsSpelledBy first own → IsSpelledBy second other
        → (MayStandTogether first second → ⊥) → HasNoOptions (own ++ (other ++ behind)) }
    ensures others { (word : List ℕ) (words : List (List ℕ)) → word ≢ codes "--list" → word ≢ codes "--check" → word ≢ codes "--audit"
        → word ≢ codes "--journal" → word ≢ codes "--watch" → word ≢ codes "--lanes"
        → ((lanes : ℕ) → 1 ≤ lanes → lanes ≤ 8 → word ≢ codes "--lanes" ++ codes "=" ++ decimal lanes)
        → word ≢ codes "--make" → ((seed : ℕ) → seed ≤ 4_294_967_295 → word ≢ codes "--make" ++ codes "=" ++ decimal seed)
        → HasNoOptions (word ∷ words) }
{}
