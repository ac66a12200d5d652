ghost use Rattle.std.specs.Prelude.{◌≡◌, ℕ, List, [], Option};
ghost use Rattle.gate_file.specs.Gates.{HasBodies, HasEither, HasRestingGate, IsStaged};

/// A law, with nothing to run: each file has one list of bodies.
pub fn a_file_has_one_list_of_bodies()
    ensures some { (file : List ℕ) → (bodies : List (List ℕ)) × HasBodies file bodies }
    ensures one { (file : List ℕ) (bodies others : List (List ℕ)) → HasBodies file bodies → HasBodies file others → bodies ≡ others }
{}

/// A law, with nothing to run: a file that is at rest is staged, whatever body is pending or none, and so is an empty file
/// with no bodies; a staged file has its bodies, with the pending one or without.
pub fn a_staged_file_has_its_bodies()
    ensures at_rest { (file : List ℕ) (bodies : List (List ℕ)) (pending : Option (List ℕ)) → HasRestingGate file bodies → IsStaged bodies pending file }
    ensures empty { (pending : Option (List ℕ)) → IsStaged [] pending [] }
    ensures either { (file : List ℕ) (bodies : List (List ℕ)) (pending : Option (List ℕ)) → IsStaged bodies pending file → HasEither bodies pending file }
{}
